// Settings of a flag, a number or a pair of a fixed kind by its name, on words.
ghost use Rattle.std.specs.Prelude.{◌≡◌};
ghost use Rattle.kinds.specs.Fields.{Setting};
ghost use Rattle.table.specs.Named.{flag_named, number_named, pair_named};
ghost use Rattle.standard.specs.Words.{set_on};

use crate::fixed::{set_home, set_slots};
use kinds::refusal::Refusal;
use table::names::{FlagName, NumberName, PairName, flag_home, number_home, pair_at};

#[tactic(auto, using(crate::proofs::Places::flag_put, bit_ops::proofs::Parts::bit_byte))]
pub fn set_flag(words: &mut [u32], flag: FlagName, on: bool) -> Result<(), Refusal>
    ensures answer { result ≡ (set_on (Setting.flag (flag_named flag) on) words.old).answer }
    ensures buffer { words.new ≡ (set_on (Setting.flag (flag_named flag) on) words.old).words }
{
    set_home(words, flag_home(flag), u32::from(on))
}

#[tactic(auto, using(crate::proofs::Places::number_put))]
pub fn set_number(words: &mut [u32], number: NumberName, x: u32) -> Result<(), Refusal>
    ensures answer { result ≡ (set_on (Setting.number (number_named number) x) words.old).answer }
    ensures buffer { words.new ≡ (set_on (Setting.number (number_named number) x) words.old).words }
{
    set_home(words, number_home(number), x)
}

// The low seven bits first.
#[tactic(auto, using(crate::proofs::Places::pair_put))]
pub fn set_pair(words: &mut [u32], pair: PairName, x: u32) -> Result<(), Refusal>
    ensures answer { result ≡ (set_on (Setting.pair (pair_named pair) x) words.old).answer }
    ensures buffer { words.new ≡ (set_on (Setting.pair (pair_named pair) x) words.old).words }
{
    set_slots(words, pair_at(pair), &[x % 128, x / 128])
}
