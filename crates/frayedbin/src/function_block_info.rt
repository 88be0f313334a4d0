// Function block info, status 0x11: settings on words and on a record.
ghost use Rattle.std.specs.Prelude.{◌≡◌};
ghost use Rattle.kinds.specs.Fields.{Flag, Number, Setting};
ghost use Rattle.standard.specs.Words.{set_on};
ghost use Rattle.c_structs.specs.Crossed.{answered};
ghost use Rattle.frayedbin.specs.Calls.{beyond, hint_on, port_on, direction_on, set_in, hint_in, port_in, direction_in};

use crate::named;
use c_structs::answers::{Answered, RecordAnswer};
use kinds::choices::{Direction, Midi1Port, UiHint};
use kinds::kind::Kind;
use numbers::Numbers;
use numbers::to_record::record_of;
use settings::choices;
use table::names::{FlagName, NumberName};

#[unsafe(no_mangle)]
pub extern "C" fn frayedbin_function_block_info_set_active(words: &mut [u32], on: bool) -> Answered
    ensures answer { result ≡ answered (set_on (Setting.flag Flag.active on) words.old).answer }
    ensures buffer { words.new ≡ (set_on (Setting.flag Flag.active on) words.old).words }
{
    named::flag_on(words, FlagName::Active, on)
}

#[unsafe(no_mangle)]
pub extern "C" fn frayedbin_function_block_info_set_function_block_number(
    words: &mut [u32],
    number: u32,
) -> Answered
    ensures answer { result ≡ answered (set_on (Setting.number Number.function_block_number number) words.old).answer }
    ensures buffer { words.new ≡ (set_on (Setting.number Number.function_block_number number) words.old).words }
{
    named::number_on(words, NumberName::FunctionBlockNumber, number)
}

// A code that names no choice is refused as a number above its field's largest is: block numbers end at 127.
fn no_choice_on(words: &mut [u32]) -> Answered
    ensures answer { result ≡ answered (set_on beyond words.old).answer }
    ensures buffer { words.new ≡ (set_on beyond words.old).words }
{
    named::number_on(words, NumberName::FunctionBlockNumber, 128)
}

// The three choices go by a match each: one function for all would take the setting as a closure with a contract, and be longer.
#[unsafe(no_mangle)]
pub extern "C" fn frayedbin_function_block_info_set_ui_hint(
    words: &mut [u32],
    code: u32,
) -> Answered
    ensures answer { result ≡ answered (hint_on code words.old).answer }
    ensures buffer { words.new ≡ (hint_on code words.old).words }
{
    match UiHint::try_from(code) {
        Ok(hint) => Answered::from(choices::set_ui_hint(words, hint)),
        Err(_) => no_choice_on(words),
    }
}

#[unsafe(no_mangle)]
pub extern "C" fn frayedbin_function_block_info_set_midi1_port(
    words: &mut [u32],
    code: u32,
) -> Answered
    ensures answer { result ≡ answered (port_on code words.old).answer }
    ensures buffer { words.new ≡ (port_on code words.old).words }
{
    match Midi1Port::try_from(code) {
        Ok(port) => Answered::from(choices::set_midi1_port(words, port)),
        Err(_) => no_choice_on(words),
    }
}

#[unsafe(no_mangle)]
pub extern "C" fn frayedbin_function_block_info_set_direction(
    words: &mut [u32],
    code: u32,
) -> Answered
    ensures answer { result ≡ answered (direction_on code words.old).answer }
    ensures buffer { words.new ≡ (direction_on code words.old).words }
{
    match Direction::try_from(code) {
        Ok(direction) => Answered::from(choices::set_direction(words, direction)),
        Err(_) => no_choice_on(words),
    }
}

#[unsafe(no_mangle)]
pub extern "C" fn frayedbin_function_block_info_set_first_group(
    words: &mut [u32],
    group: u32,
) -> Answered
    ensures answer { result ≡ answered (set_on (Setting.number Number.first_group group) words.old).answer }
    ensures buffer { words.new ≡ (set_on (Setting.number Number.first_group group) words.old).words }
{
    named::number_on(words, NumberName::FirstGroup, group)
}

#[unsafe(no_mangle)]
pub extern "C" fn frayedbin_function_block_info_set_number_of_groups_spanned(
    words: &mut [u32],
    number: u32,
) -> Answered
    ensures answer { result ≡ answered (set_on (Setting.number Number.number_of_groups_spanned number) words.old).answer }
    ensures buffer { words.new ≡ (set_on (Setting.number Number.number_of_groups_spanned number) words.old).words }
{
    named::number_on(words, NumberName::NumberOfGroupsSpanned, number)
}

#[unsafe(no_mangle)]
pub extern "C" fn frayedbin_function_block_info_set_midi_ci_version(
    words: &mut [u32],
    version: u32,
) -> Answered
    ensures answer { result ≡ answered (set_on (Setting.number Number.midi_ci_version version) words.old).answer }
    ensures buffer { words.new ≡ (set_on (Setting.number Number.midi_ci_version version) words.old).words }
{
    named::number_on(words, NumberName::MidiCiVersion, version)
}

#[unsafe(no_mangle)]
pub extern "C" fn frayedbin_function_block_info_set_max_number_of_midi_ci_streams(
    words: &mut [u32],
    number: u32,
) -> Answered
    ensures answer { result ≡ answered (set_on (Setting.number Number.max_number_of_midi_ci_streams number) words.old).answer }
    ensures buffer { words.new ≡ (set_on (Setting.number Number.max_number_of_midi_ci_streams number) words.old).words }
{
    named::number_on(words, NumberName::MaxNumberOfMidiCiStreams, number)
}

// On a record.

#[unsafe(no_mangle)]
pub extern "C" fn frayedbin_record_set_active(record: Numbers, on: bool) -> RecordAnswer
    ensures { result ≡ set_in (λ k. Setting.flag Flag.active on) «record» }
{
    named::flag_in(record, FlagName::Active, on)
}

#[unsafe(no_mangle)]
pub extern "C" fn frayedbin_record_set_function_block_number(
    record: Numbers,
    number: u32,
) -> RecordAnswer
    ensures { result ≡ set_in (λ k. Setting.number Number.function_block_number number) «record» }
{
    named::number_in(record, NumberName::FunctionBlockNumber, number)
}

// The same on a record.
fn no_choice_in(record: Numbers) -> RecordAnswer
    ensures { result ≡ set_in (λ k. beyond) «record» }
{
    named::number_in(record, NumberName::FunctionBlockNumber, 128)
}

#[unsafe(no_mangle)]
pub extern "C" fn frayedbin_record_set_ui_hint(record: Numbers, code: u32) -> RecordAnswer
    ensures { result ≡ hint_in code «record» }
{
    let Ok(hint) = UiHint::try_from(code) else {
        return no_choice_in(record);
    };
    let edited = record_of(Kind::FunctionBlockInfo, record).map(|message| message.set_ui_hint(
        hint,
    ));
    RecordAnswer::edited(edited, record)
}

#[unsafe(no_mangle)]
pub extern "C" fn frayedbin_record_set_midi1_port(record: Numbers, code: u32) -> RecordAnswer
    ensures { result ≡ port_in code «record» }
{
    let Ok(port) = Midi1Port::try_from(code) else {
        return no_choice_in(record);
    };
    let edited = record_of(Kind::FunctionBlockInfo, record).map(|message| message.set_midi1_port(
        port,
    ));
    RecordAnswer::edited(edited, record)
}

#[unsafe(no_mangle)]
pub extern "C" fn frayedbin_record_set_direction(record: Numbers, code: u32) -> RecordAnswer
    ensures { result ≡ direction_in code «record» }
{
    let Ok(direction) = Direction::try_from(code) else {
        return no_choice_in(record);
    };
    let edited = record_of(Kind::FunctionBlockInfo, record).map(|message| message.set_direction(
        direction,
    ));
    RecordAnswer::edited(edited, record)
}

#[unsafe(no_mangle)]
pub extern "C" fn frayedbin_record_set_first_group(record: Numbers, group: u32) -> RecordAnswer
    ensures { result ≡ set_in (λ k. Setting.number Number.first_group group) «record» }
{
    named::number_in(record, NumberName::FirstGroup, group)
}

#[unsafe(no_mangle)]
pub extern "C" fn frayedbin_record_set_number_of_groups_spanned(
    record: Numbers,
    number: u32,
) -> RecordAnswer
    ensures { result ≡ set_in (λ k. Setting.number Number.number_of_groups_spanned number) «record» }
{
    named::number_in(record, NumberName::NumberOfGroupsSpanned, number)
}

#[unsafe(no_mangle)]
pub extern "C" fn frayedbin_record_set_midi_ci_version(
    record: Numbers,
    version: u32,
) -> RecordAnswer
    ensures { result ≡ set_in (λ k. Setting.number Number.midi_ci_version version) «record» }
{
    named::number_in(record, NumberName::MidiCiVersion, version)
}

#[unsafe(no_mangle)]
pub extern "C" fn frayedbin_record_set_max_number_of_midi_ci_streams(
    record: Numbers,
    number: u32,
) -> RecordAnswer
    ensures { result ≡ set_in (λ k. Setting.number Number.max_number_of_midi_ci_streams number) «record» }
{
    named::number_in(record, NumberName::MaxNumberOfMidiCiStreams, number)
}
