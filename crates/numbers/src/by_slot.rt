// Numbers held to the slots of a kind, and put into them, one number a slot from a first slot on.
ghost use Rattle.std.specs.Prelude.{◌≡◌};
ghost use Rattle.kinds.specs.Layout.{layout};
ghost use Rattle.numbers.specs.BySlot.{fit_from, put_from};

use fields::put_field;
use kinds::kind::Kind;
use table::places::place_of;

// Whether each number is at most its slot's largest.
pub fn numbers_fit(kind: Kind, first: u8, numbers: &[u32]) -> bool
    ensures { result ≡ fit_from (layout kind).fields first numbers.now }
{
    for (i, &number) in numbers.iter().enumerate() {
        if place_of(kind, first as usize + i).bits.too_large(number) {
            return false;
        }
    }
    true
}

// The last number is put first, as in the definition. A number that does not fit is left out.
pub fn put_numbers(words: &mut [u32], kind: Kind, first: u8, numbers: &[u32])
    ensures { words.new ≡ put_from (layout kind).fields first numbers.now words.old }
{
    for i in (0..numbers.len()).rev() {
        let place = place_of(kind, first as usize + i);
        put_field(words, place.word, place.bits, numbers[i]);
    }
}
