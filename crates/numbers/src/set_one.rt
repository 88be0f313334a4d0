// One number of a record of one packet set among its numbers, with no record made.
ghost use Rattle.std.specs.Prelude.{◌≡◌};
ghost use Rattle.numbers.specs.FromNumbers.{from_own};
ghost use Rattle.numbers.specs.SetOne.{checked, number_now, with_number};

use crate::to_record::{is_record, other_kind};
use crate::{Numbers, Reserved};
use kinds::kind::Kind;
use kinds::refusal::Refusal;
use table::rows::row_of;

// Whether the numbers are a record of this kind, or why not: refusals 5, 13, 12.
#[tactic(auto, unfolding(crate::specs::FromNumbers::from_kind))]
pub fn check_record(kind: Kind, c: Numbers) -> Result<(), Refusal>
    ensures { result ≡ checked (from_own kind c) }
{
    let row = row_of(kind);
    if c.status != row.status {
        return Err(other_kind(c.status));
    }
    if is_record(kind, c) {
        return Ok(());
    }
    Err(Refusal::NumberTooLarge)
}

// Number i after number `at` of `count` is set to x: 0 past the last.
fn number_now(count: usize, at: usize, x: u32, i: usize, old: u32) -> u32
    ensures { result ≡ number_now count at x i old }
{
    if i == at {
        return x;
    }
    if i < count {
        return old;
    }
    0
}

// One by one, since the nine numbers are fields by name for C.
pub fn with_number(c: Numbers, count: usize, at: usize, x: u32) -> Numbers
    ensures { result ≡ with_number count at x c }
{
    Numbers {
        status: c.status,
        packets: 1,
        first: number_now(count, at, x, 0, c.first),
        second: number_now(count, at, x, 1, c.second),
        third: number_now(count, at, x, 2, c.third),
        fourth: number_now(count, at, x, 3, c.fourth),
        fifth: number_now(count, at, x, 4, c.fifth),
        sixth: number_now(count, at, x, 5, c.sixth),
        seventh: number_now(count, at, x, 6, c.seventh),
        eighth: number_now(count, at, x, 7, c.eighth),
        ninth: number_now(count, at, x, 8, c.ninth),
        reserved: Reserved(0, 0, 0, 0, 0),
    }
}
