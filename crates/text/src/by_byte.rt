// Reading text one byte at a time, by value: a step takes a place and returns the next one.
ghost use Rattle.std.specs.Prelude.{◌≡◌, ◌+◌, ◌-◌, ◌^◌, ◌<◌};
ghost use Rattle.text.specs.Octets.{octet_of};
ghost use Rattle.text.specs.Place.{byte_at, stepped, step_at};
ghost use Rattle.text.specs.Handed.{start_place, next_place};

use crate::packets::packets_of;
use crate::{Stepped, TextPlace};
use counts::{PacketNumber, TextByteNumber, first_word};

// Octet j of a word. An element of `to_be_bytes` goes through memory, and the shift doesn't.
#[tactic(auto, unfolding(crate::specs::Octets::octet_of))]
fn octet_of(word: u32, j: usize) -> u8
    requires { j < 4 }
    ensures { result ≡ octet_of word j }
{
    ((word >> (24 - j * 8)) % 256) as u8
}

// The text byte at a place; 0 if no whole packet has such a byte. Octet o of a packet is octet o % 4 of its word o / 4.
// No Option: a zero octet is no byte of the text either, so a caller would turn None into 0.
#[tactic(auto, unfolding(crate::specs::Place::byte_at, crate::specs::Bytes::text_byte))]
pub fn text_byte(words: &[u32], offset: usize, at: TextPlace) -> u8
    ensures { result ≡ byte_at words.now (14 - offset) at }
{
    let b = at.byte.0;
    if packets_of(words) <= at.packet {
        return 0;
    }
    if 14 <= offset {
        return 0;
    }
    if 14 - offset <= b {
        return 0;
    }
    let o = b + 2 + offset;
    let k = first_word(at.packet).0 + o / 4;
    octet_of(words[k], o % 4)
}

// The next place; after a packet's last byte comes byte 0 of the next packet.
#[tactic(auto, using(crate::proofs::Place::next_byte))]
fn next_place(capacity: usize, at: TextPlace) -> TextPlace
    requires { (at.byte.0 < capacity) × (at.packet.0 + 1 < 2 ^ 64) }
    ensures { result ≡ next_place capacity at }
{
    let b = at.byte.0;
    if b + 1 == capacity {
        return TextPlace {
            packet: PacketNumber(at.packet.0 + 1),
            byte: TextByteNumber(0),
        };
    }
    TextPlace {
        byte: TextByteNumber(b + 1),
        ..at
    }
}

// The first place of any text.
pub fn start() -> TextPlace
    ensures { result ≡ start_place }
{
    TextPlace {
        packet: PacketNumber(0),
        byte: TextByteNumber(0),
    }
}

// The end of the text, at a place.
fn end_at(at: TextPlace) -> Stepped
    ensures { result ≡ stepped None at }
{
    Stepped {
        step: None,
        place: at,
    }
}

// The next nonzero text byte and the place after it, or the end. A place past the text does not move. An offset of 14 or more leaves no text.
pub fn step(words: &[u32], offset: usize, at: TextPlace) -> Stepped
    ensures { result ≡ step_at words.now (14 - offset) at }
{
    if 14 <= offset {
        return end_at(at);
    }
    if 14 - offset <= at.byte.0 {
        return end_at(at);
    }
    let packets = packets_of(words);
    let mut place = at;
    // The place is what the caller gets back, and no number of a range.
    while place.packet.0 < packets.0 {
        let x = text_byte(words, offset, place);
        place = next_place(14 - offset, place);
        if x != 0 {
            return Stepped {
                step: Some(x),
                place,
            };
        }
    }
    end_at(place)
}
