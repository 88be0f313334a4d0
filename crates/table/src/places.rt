// Where each slot of a kind stands: word, lowest bit, width. Slots are counted in the table's order.
ghost use Rattle.std.specs.Prelude.{◌≡◌};
ghost use Rattle.kinds.specs.Layout.{layout};
ghost use Rattle.table.specs.Places.{PlaceIs, place_at, slot_at, every_slot};

use crate::rows::row_of;
use counts::WordNumber;
use fields::Bits;
use kinds::kind::Kind;

// Where a number stands in a message: its word, and its bits there.
#[derive(Clone, Copy)]
pub struct Place {
    pub word: WordNumber,
    pub bits: Bits,
}

impl Place {
    fn new(word: usize, low: usize, width: usize) -> Place
        ensures { result ≡ place_at word low width }
    {
        Place {
            word: WordNumber(word),
            bits: Bits { low, width },
        }
    }
}

// All slots, kind after kind: one match on a number, which the compiler turns into a table.
#[tactic(auto, unfolding(laws::specs::Lists::each, kinds::specs::Layout::layout), using(crate::proofs::PlaceLaws::past))]
fn nth_place(n: usize) -> Place
    ensures { PlaceIs (slot_at every_slot n) result }
{
    match n {
        // Endpoint discovery.
        0 => Place::new(0, 8, 8),
        1 => Place::new(0, 0, 8),
        2 => Place::new(1, 0, 1),
        3 => Place::new(1, 1, 1),
        4 => Place::new(1, 2, 1),
        5 => Place::new(1, 3, 1),
        6 => Place::new(1, 4, 1),
        // Endpoint info.
        7 => Place::new(0, 8, 8),
        8 => Place::new(0, 0, 8),
        9 => Place::new(1, 31, 1),
        10 => Place::new(1, 9, 1),
        11 => Place::new(1, 8, 1),
        12 => Place::new(1, 1, 1),
        13 => Place::new(1, 0, 1),
        14 => Place::new(1, 24, 7),
        // Device identity.
        15 => Place::new(1, 16, 7),
        16 => Place::new(1, 8, 7),
        17 => Place::new(1, 0, 7),
        18 => Place::new(2, 24, 7),
        19 => Place::new(2, 16, 7),
        20 => Place::new(2, 8, 7),
        21 => Place::new(2, 0, 7),
        22 => Place::new(3, 24, 7),
        23 => Place::new(3, 16, 7),
        24 => Place::new(3, 8, 7),
        25 => Place::new(3, 0, 7),
        // Function block info.
        26 => Place::new(0, 15, 1),
        27 => Place::new(0, 8, 7),
        28 => Place::new(0, 4, 2),
        29 => Place::new(0, 2, 2),
        30 => Place::new(0, 0, 2),
        31 => Place::new(1, 24, 4),
        32 => Place::new(1, 16, 8),
        33 => Place::new(1, 8, 8),
        34 => Place::new(1, 0, 8),
        // Function block name.
        35 => Place::new(0, 8, 8),
        _ => Place::new(0, 0, 0),
    }
}

// Past the kind's last slot: a place of no bits, as the definition has it. It holds no number, so callers need not ask.
#[tactic(auto, using(crate::proofs::RowLaws::row_small, crate::proofs::PlaceLaws::place_told))]
pub fn place_of(kind: Kind, slot: usize) -> Place
    ensures { PlaceIs (slot_at (layout kind).fields slot) result }
{
    let row = row_of(kind);
    if row.slots <= slot {
        return Place::new(0, 0, 0);
    }
    nth_place(row.first_slot + slot)
}
