// A packet from any slice, its format, and the size of the message that a slice starts with. src/ump_stream/packet.rs of the Rust.
ghost use Rattle.std.specs.Prelude.{◌≡◌, get_or};
ghost use Rattle.standard.specs.Packet.{packet_of, packet_format, message_size};
ghost use Rattle.reading.specs.Rules.{ends};

use crate::heads::{format_of, type_of};
use crate::rules::first_packet;
use counts::{PacketNumber, WordNumber, first_word};
use kinds::choices::Format;
use kinds::refusal::Refusal;
use records::packet::Packet;

// A word, and 0 past the end. One call of the library, so numbers and buffer have their own of it.
fn word_or_zero(words: &[u32], i: usize) -> u32
    ensures { result ≡ get_or words.now i 0 }
{
    words.get(i).copied().unwrap_or(0)
}

#[tactic(auto, unfolding(standard::specs::Packet::packet_of))]
pub fn packet(words: &[u32]) -> Result<Packet, Refusal>
    ensures { result ≡ packet_of words.now }
{
    if words.is_empty() {
        return Err(Refusal::TooFewWords);
    }
    let first = words[0];
    if type_of(first) != 15 {
        return Err(Refusal::WrongType(PacketNumber(0)));
    }
    let second = word_or_zero(words, 1);
    let third = word_or_zero(words, 2);
    let fourth = word_or_zero(words, 3);
    Ok(Packet(first, second, third, fourth))
}

pub fn format(packet: Packet) -> Format
    ensures { result ≡ packet_format packet }
{
    match format_of(packet.0) {
        0 => Format::Complete,
        1 => Format::Start,
        2 => Format::Continue,
        _ => Format::End,
    }
}

// Whether a packet with this first word ends a message.
#[tactic(auto, unfolding(crate::specs::Rules::ends))]
fn ends_message(word: u32) -> bool
    ensures { result ≡ ends word }
{
    matches!(format_of(word), 0 | 3)
}

// The words of the message that a slice starts with, by the formats alone.
pub fn message_size(words: &[u32]) -> Result<WordNumber, Refusal>
    ensures { result ≡ message_size words.now }
{
    let Some(last) = first_packet(words, |head, _| ends_message(head)) else {
        return Err(Refusal::TooFewWords);
    };
    Ok(first_word(PacketNumber(last.0 + 1)))
}
