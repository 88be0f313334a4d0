// A flag, a number or a pair by its name, set on words; a flag or a number on a record.
ghost use Rattle.std.specs.Prelude.{◌≡◌, length};
ghost use Rattle.kinds.specs.Fields.{Setting};
ghost use Rattle.kinds.specs.Layout.{layout};
ghost use Rattle.table.specs.Places.{slot_at};
ghost use Rattle.table.specs.Named.{flag_named, number_named, pair_named};
ghost use Rattle.standard.specs.Words.{set_on};
ghost use Rattle.c_structs.specs.Crossed.{answered};
ghost use Rattle.frayedbin.specs.Calls.{set_in, one_in};

use c_structs::answers::{Answered, RecordAnswer};
use fields::Bits;
use kinds::refusal::Refusal;
use numbers::Numbers;
use numbers::set_one::{check_record, with_number};
use settings::named::{set_flag, set_number, set_pair};
use table::names::{FieldAt, FlagName, NumberName, PairName, flag_at, number_at};
use table::places::place_of;
use table::rows::row_of;

pub(crate) fn flag_on(words: &mut [u32], flag: FlagName, on: bool) -> Answered
    ensures answer { result ≡ answered (set_on (Setting.flag (flag_named flag) on) words.old).answer }
    ensures buffer { words.new ≡ (set_on (Setting.flag (flag_named flag) on) words.old).words }
{
    Answered::from(set_flag(words, flag, on))
}

pub(crate) fn number_on(words: &mut [u32], number: NumberName, x: u32) -> Answered
    ensures answer { result ≡ answered (set_on (Setting.number (number_named number) x) words.old).answer }
    ensures buffer { words.new ≡ (set_on (Setting.number (number_named number) x) words.old).words }
{
    Answered::from(set_number(words, number, x))
}

pub(crate) fn pair_on(words: &mut [u32], pair: PairName, x: u32) -> Answered
    ensures answer { result ≡ answered (set_on (Setting.pair (pair_named pair) x) words.old).answer }
    ensures buffer { words.new ≡ (set_on (Setting.pair (pair_named pair) x) words.old).words }
{
    Answered::from(set_pair(words, pair, x))
}

// One number of a record, set among its numbers with no record made.
fn one_in(record: Numbers, at: FieldAt, slots: usize, bits: Bits, x: u32) -> RecordAnswer
    requires { (slots ≡ length (layout at.kind).fields) × (bits.width ≡ (slot_at (layout at.kind).fields at.slot).span) }
    ensures { result ≡ one_in at.kind at.slot x «record» }
{
    if let Err(refusal) = check_record(at.kind, record) {
        return RecordAnswer::refused(refusal, record);
    }
    if bits.too_large(x) {
        return RecordAnswer::refused(Refusal::NumberTooLarge, record);
    }
    RecordAnswer::accepted(with_number(record, slots, at.slot as usize, x))
}

// Row and bits are looked up here, where the compiler knows the name.
pub(crate) fn flag_in(record: Numbers, flag: FlagName, on: bool) -> RecordAnswer
    ensures { result ≡ set_in (λ k. Setting.flag (flag_named flag) on) «record» }
{
    let at = flag_at(flag);
    let bits = place_of(at.kind, at.slot as usize).bits;
    one_in(record, at, row_of(at.kind).slots, bits, u32::from(on))
}

pub(crate) fn number_in(record: Numbers, number: NumberName, x: u32) -> RecordAnswer
    ensures { result ≡ set_in (λ k. Setting.number (number_named number) x) «record» }
{
    let at = number_at(number);
    let bits = place_of(at.kind, at.slot as usize).bits;
    one_in(record, at, row_of(at.kind).slots, bits, x)
}
