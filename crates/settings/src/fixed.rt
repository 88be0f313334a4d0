// Settings of fixed kinds by slot: one number, or several in slots one after another.
ghost use Rattle.std.specs.Prelude.{◌≡◌};
ghost use Rattle.settings.specs.Fixed.{place_on, home_on, slots_on};

use crate::helpers::find_target;
use fields::put_field;
use kinds::refusal::Refusal;
use numbers::by_slot::{numbers_fit, put_numbers};
use table::names::{FieldAt, Home};
use table::places::Place;
use table::rows::row_of;

// The refusals of the target, then 12; else the number is put at its place.
#[tactic(auto, unfolding(crate::specs::Fixed::place_on))]
fn set_place(words: &mut [u32], status: u32, place: Place, v: u32) -> Result<(), Refusal>
    ensures answer { result ≡ (place_on status place.word.0 place.bits.low place.bits.width v words.old).answer }
    ensures buffer { words.new ≡ (place_on status place.word.0 place.bits.low place.bits.width v words.old).words }
{
    find_target(words, status)?;
    if place.bits.too_large(v) {
        return Err(Refusal::NumberTooLarge);
    }
    put_field(words, place.word, place.bits, v);
    Ok(())
}

// The same at a number's home. Inlined, since the compiler knows the row of the kind only where it knows the field.
#[inline(always)]
pub(crate) fn set_home(words: &mut [u32], home: Home, v: u32) -> Result<(), Refusal>
    ensures answer { result ≡ (home_on home v words.old).answer }
    ensures buffer { words.new ≡ (home_on home v words.old).words }
{
    set_place(words, row_of(home.kind).status, home.place, v)
}

// Several numbers in the slots of a kind, from the first on. Inlined for the same reason.
#[inline(always)]
#[tactic(auto, unfolding(crate::specs::Fixed::slots_on))]
pub(crate) fn set_slots(words: &mut [u32], at: FieldAt, numbers: &[u32]) -> Result<(), Refusal>
    ensures answer { result ≡ (slots_on at.kind at.slot numbers.now words.old).answer }
    ensures buffer { words.new ≡ (slots_on at.kind at.slot numbers.now words.old).words }
{
    find_target(words, row_of(at.kind).status)?;
    if !numbers_fit(at.kind, at.slot, numbers) {
        return Err(Refusal::NumberTooLarge);
    }
    put_numbers(words, at.kind, at.slot, numbers);
    Ok(())
}
