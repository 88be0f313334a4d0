// Planted differences: each bit of a block name of two packets, of the zeroed packet after it and of the tail is turned in turn,
// and told as after a setting. A comparison that does not see one leaves the column `differed` short.
use crate::run::{build, same};
use crate::tally::Tally;
use crate::values::{Pool, Values};
use kinds::kind::Kind;

// The words with one bit turned; there is none past the end.
fn turn(words: &mut [u32], bit: usize) {
    if let Some(word) = words.get_mut(bit / 32) {
        let on = bit_ops::bit(*word, bit % 32);
        *word = bit_ops::set_bit(*word, bit % 32, !on);
    }
}

// A bit of the tail is turned in both, since the tail is held to the words found.
fn turn_both(words: &mut [u32], again: &mut [u32], bit: usize) {
    let whole = words.len() / 4 * 4;
    turn(words, bit);
    if whole <= bit / 32 {
        turn(again, bit);
    }
}

// Block 5, and eighteen bytes of text, which take two packets.
fn name(pool: &Pool) -> Values<'_> {
    Values {
        numbers: [5, 0, 0, 0, 0, 0, 0, 0, 0],
        text: &pool[..18],
    }
}

// Each bit of fifteen words: three packets and a tail of three.
pub(crate) fn plant_each(pool: &Pool) -> Tally {
    let mut words = [0u32; 15];
    let mut again = [0u32; 15];
    build(&mut words, Kind::FunctionBlockName, name(pool));
    build(&mut again, Kind::FunctionBlockName, name(pool));
    let mut tally = Tally::default();
    for bit in 0..480 {
        turn_both(&mut words, &mut again, bit);
        tally.tell(Ok(()), same(&words, &again));
        turn_both(&mut words, &mut again, bit);
    }
    tally
}
