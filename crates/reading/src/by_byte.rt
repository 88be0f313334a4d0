// The text of a slice, a byte at a time, whatever its words are.
ghost use Rattle.std.specs.Prelude.{◌≡◌};
ghost use Rattle.standard.specs.Place.{offset_here, next_byte};

use crate::heads::status_of;
use text::{Stepped, TextPlace};

// 1 where the first word's status is 0x12, else 0.
#[tactic(auto, unfolding(standard::specs::Place::offset_here, kinds::specs::Layout::layout))]
fn text_offset(words: &[u32]) -> usize
    ensures { result ≡ offset_here words.now }
{
    if words.is_empty() {
        return 0;
    }
    if status_of(words[0]) == 0x12 {
        return 1;
    }
    0
}

// The next byte that is not zero, or the end, and the place after it.
pub fn next_byte(words: &[u32], at: TextPlace) -> Stepped
    ensures { result ≡ next_byte words.now at }
{
    text::by_byte::step(words, text_offset(words), at)
}
