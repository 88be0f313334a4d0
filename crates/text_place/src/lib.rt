// The text place, lent: the caller keeps one place and lends it for each byte.
#![tactic(auto)]

ghost use Rattle.std.specs.Prelude.{◌≡◌};
ghost use Rattle.standard.specs.Place.{next_byte};

use reading::by_byte;
use text::TextPlace;

// The next nonzero byte, or the end. The place moves as in the by-value step.
pub fn next_byte(words: &[u32], place: &mut TextPlace) -> Option<u8>
    ensures { (result ≡ (next_byte words.now place.old).step)
        × (place.new ≡ (next_byte words.now place.old).place) }
{
    let s = by_byte::next_byte(words, *place);
    *place = s.place;
    s.step
}
