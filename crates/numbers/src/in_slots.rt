// The numbers of a record slot by slot, in the table's order: held to their limits, and put into words.
ghost use Rattle.std.specs.Prelude.{◌≡◌};
ghost use Rattle.slots.specs.Slots.{fits};
ghost use Rattle.fields.specs.Puts.{put_ins};
ghost use Rattle.kinds.specs.Layout.{layout, parts};
ghost use Rattle.numbers.specs.FromNumbers.{within, values_from, slot_numbers, plain_slots, pair_slots};

use crate::Numbers;
use crate::by_slot::put_numbers;
use kinds::kind::Kind;
use table::rows::row_of;

// The most slots that a kind has.
const MOST_SLOTS: usize = 11;

// One number a slot.
fn plain_slots(c: Numbers) -> [u32; MOST_SLOTS]
    ensures { result ≡ plain_slots c }
{
    [
        c.first, c.second, c.third, c.fourth, c.fifth, c.sixth, c.seventh, c.eighth, c.ninth, 0, 0,
    ]
}

// The fourth and the fifth number are pairs, of two slots each.
fn pair_slots(c: Numbers) -> [u32; MOST_SLOTS]
    ensures { result ≡ pair_slots c }
{
    [
        c.first,
        c.second,
        c.third,
        c.fourth % 128,
        c.fourth / 128,
        c.fifth % 128,
        c.fifth / 128,
        c.sixth,
        c.seventh,
        c.eighth,
        c.ninth,
    ]
}

// A kind with more slots than numbers has pairs. 0 past the kind's last slot.
#[tactic(auto, unfolding(crate::specs::FromNumbers::slot_numbers))]
fn slot_numbers(kind: Kind, c: Numbers) -> [u32; MOST_SLOTS]
    ensures { result ≡ slot_numbers kind c }
{
    let row = row_of(kind);
    if 9 < row.slots {
        return pair_slots(c);
    }
    plain_slots(c)
}

// Whether each limit has its number, which is below it.
fn are_within(numbers: &[u32], limits: &[u32]) -> bool
    ensures { result ≡ within numbers.now limits.now }
{
    limits.len() <= numbers.len()
        && numbers
            .iter()
            .zip(limits)
            .all(|(number, limit)| number < limit)
}

// Whether each number is at most its field's largest. The limits are constants, so that the compiler takes the loop apart.
#[tactic(auto, unfolding(crate::specs::FromNumbers::within, laws::specs::Lists::map, kinds::specs::Layout::layout))]
pub fn numbers_in_range(kind: Kind, c: Numbers) -> bool
    ensures { result ≡ fits (layout kind).fields (parts (values_from kind c)) }
{
    let ns = slot_numbers(kind, c);
    match kind {
        Kind::EndpointDiscovery => are_within(&ns, &[256, 256, 2, 2, 2, 2, 2]),
        Kind::EndpointInfo => are_within(&ns, &[256, 256, 2, 2, 2, 2, 2, 128]),
        Kind::DeviceIdentity => are_within(&ns, &[128; 11]),
        Kind::EndpointName => true,
        Kind::ProductInstanceId => true,
        Kind::FunctionBlockInfo => are_within(&ns, &[2, 128, 4, 4, 4, 16, 256, 256, 256]),
        Kind::FunctionBlockName => are_within(&ns, &[256]),
    }
}

// A number that does not fit is left out.
pub fn put_slots(words: &mut [u32], kind: Kind, c: Numbers)
    ensures { words.new ≡ put_ins (layout kind).fields (parts (values_from kind c)) words.old }
{
    let ns = slot_numbers(kind, c);
    let row = row_of(kind);
    let count = row.slots;
    put_numbers(words, kind, 0, &ns[..count]);
}
