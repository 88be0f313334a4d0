// Endpoint info, status 0x01: settings on words and on a record.
ghost use Rattle.std.specs.Prelude.{◌≡◌};
ghost use Rattle.kinds.specs.Fields.{Flag, Number, Setting};
ghost use Rattle.standard.specs.Words.{set_on};
ghost use Rattle.c_structs.specs.Crossed.{answered};
ghost use Rattle.frayedbin.specs.Calls.{set_in};

use crate::named;
use c_structs::answers::{Answered, RecordAnswer};
use numbers::Numbers;
use table::names::{FlagName, NumberName};

#[unsafe(no_mangle)]
pub extern "C" fn frayedbin_endpoint_info_set_ump_version_major(
    words: &mut [u32],
    version: u32,
) -> Answered
    ensures answer { result ≡ answered (set_on (Setting.number Number.info_version_major version) words.old).answer }
    ensures buffer { words.new ≡ (set_on (Setting.number Number.info_version_major version) words.old).words }
{
    named::number_on(words, NumberName::InfoVersionMajor, version)
}

#[unsafe(no_mangle)]
pub extern "C" fn frayedbin_endpoint_info_set_ump_version_minor(
    words: &mut [u32],
    version: u32,
) -> Answered
    ensures answer { result ≡ answered (set_on (Setting.number Number.info_version_minor version) words.old).answer }
    ensures buffer { words.new ≡ (set_on (Setting.number Number.info_version_minor version) words.old).words }
{
    named::number_on(words, NumberName::InfoVersionMinor, version)
}

#[unsafe(no_mangle)]
pub extern "C" fn frayedbin_endpoint_info_set_static_function_blocks(
    words: &mut [u32],
    on: bool,
) -> Answered
    ensures answer { result ≡ answered (set_on (Setting.flag Flag.static_function_blocks on) words.old).answer }
    ensures buffer { words.new ≡ (set_on (Setting.flag Flag.static_function_blocks on) words.old).words }
{
    named::flag_on(words, FlagName::StaticFunctionBlocks, on)
}

#[unsafe(no_mangle)]
pub extern "C" fn frayedbin_endpoint_info_set_supports_midi2_protocol(
    words: &mut [u32],
    on: bool,
) -> Answered
    ensures answer { result ≡ answered (set_on (Setting.flag Flag.supports_midi2_protocol on) words.old).answer }
    ensures buffer { words.new ≡ (set_on (Setting.flag Flag.supports_midi2_protocol on) words.old).words }
{
    named::flag_on(words, FlagName::SupportsMidi2Protocol, on)
}

#[unsafe(no_mangle)]
pub extern "C" fn frayedbin_endpoint_info_set_supports_midi1_protocol(
    words: &mut [u32],
    on: bool,
) -> Answered
    ensures answer { result ≡ answered (set_on (Setting.flag Flag.supports_midi1_protocol on) words.old).answer }
    ensures buffer { words.new ≡ (set_on (Setting.flag Flag.supports_midi1_protocol on) words.old).words }
{
    named::flag_on(words, FlagName::SupportsMidi1Protocol, on)
}

#[unsafe(no_mangle)]
pub extern "C" fn frayedbin_endpoint_info_set_supports_receiving_jr_timestamps(
    words: &mut [u32],
    on: bool,
) -> Answered
    ensures answer { result ≡ answered (set_on (Setting.flag Flag.supports_receiving_jr_timestamps on) words.old).answer }
    ensures buffer { words.new ≡ (set_on (Setting.flag Flag.supports_receiving_jr_timestamps on) words.old).words }
{
    named::flag_on(words, FlagName::SupportsReceivingJrTimestamps, on)
}

#[unsafe(no_mangle)]
pub extern "C" fn frayedbin_endpoint_info_set_supports_sending_jr_timestamps(
    words: &mut [u32],
    on: bool,
) -> Answered
    ensures answer { result ≡ answered (set_on (Setting.flag Flag.supports_sending_jr_timestamps on) words.old).answer }
    ensures buffer { words.new ≡ (set_on (Setting.flag Flag.supports_sending_jr_timestamps on) words.old).words }
{
    named::flag_on(words, FlagName::SupportsSendingJrTimestamps, on)
}

#[unsafe(no_mangle)]
pub extern "C" fn frayedbin_endpoint_info_set_number_of_function_blocks(
    words: &mut [u32],
    number: u32,
) -> Answered
    ensures answer { result ≡ answered (set_on (Setting.number Number.number_of_function_blocks number) words.old).answer }
    ensures buffer { words.new ≡ (set_on (Setting.number Number.number_of_function_blocks number) words.old).words }
{
    named::number_on(words, NumberName::NumberOfFunctionBlocks, number)
}

// On a record.

#[unsafe(no_mangle)]
pub extern "C" fn frayedbin_record_set_static_function_blocks(
    record: Numbers,
    on: bool,
) -> RecordAnswer
    ensures { result ≡ set_in (λ k. Setting.flag Flag.static_function_blocks on) «record» }
{
    named::flag_in(record, FlagName::StaticFunctionBlocks, on)
}

#[unsafe(no_mangle)]
pub extern "C" fn frayedbin_record_set_supports_midi2_protocol(
    record: Numbers,
    on: bool,
) -> RecordAnswer
    ensures { result ≡ set_in (λ k. Setting.flag Flag.supports_midi2_protocol on) «record» }
{
    named::flag_in(record, FlagName::SupportsMidi2Protocol, on)
}

#[unsafe(no_mangle)]
pub extern "C" fn frayedbin_record_set_supports_midi1_protocol(
    record: Numbers,
    on: bool,
) -> RecordAnswer
    ensures { result ≡ set_in (λ k. Setting.flag Flag.supports_midi1_protocol on) «record» }
{
    named::flag_in(record, FlagName::SupportsMidi1Protocol, on)
}

#[unsafe(no_mangle)]
pub extern "C" fn frayedbin_record_set_supports_receiving_jr_timestamps(
    record: Numbers,
    on: bool,
) -> RecordAnswer
    ensures { result ≡ set_in (λ k. Setting.flag Flag.supports_receiving_jr_timestamps on) «record» }
{
    named::flag_in(record, FlagName::SupportsReceivingJrTimestamps, on)
}

#[unsafe(no_mangle)]
pub extern "C" fn frayedbin_record_set_supports_sending_jr_timestamps(
    record: Numbers,
    on: bool,
) -> RecordAnswer
    ensures { result ≡ set_in (λ k. Setting.flag Flag.supports_sending_jr_timestamps on) «record» }
{
    named::flag_in(record, FlagName::SupportsSendingJrTimestamps, on)
}

#[unsafe(no_mangle)]
pub extern "C" fn frayedbin_record_set_number_of_function_blocks(
    record: Numbers,
    number: u32,
) -> RecordAnswer
    ensures { result ≡ set_in (λ k. Setting.number Number.number_of_function_blocks number) «record» }
{
    named::number_in(record, NumberName::NumberOfFunctionBlocks, number)
}
