// Checks the heads of a message in one pass: each must be like the first except for its format, and the formats must run from Start to End.
ghost use Rattle.std.specs.Prelude.{◌≡◌, ◌<◌};
ghost use Rattle.reading.specs.OnePass.{text_bits, head_bits, like_first, ends_at, headed_packets};

use crate::heads::{format_of, type_of};
use counts::PacketNumber;
use text::packets::{due_format, head_at, packets_of};

// The low bits of a packet's first word that may be text.
#[tactic(auto, unfolding(crate::specs::OnePass::text_bits))]
fn text_bits(offset: usize) -> u32
    ensures value { result ≡ text_bits offset }
    ensures small { result < 32 }
{
    match offset {
        0 => 16,
        1 => 8,
        _ => 0,
    }
}

// The bits of a first word above its text, with the format set to 0.
#[tactic(auto, unfolding(crate::specs::OnePass::head_bits, bit_ops::specs::Parts::put_part))]
fn head_bits(word: u32, offset: usize) -> u32
    ensures { result ≡ head_bits word offset }
{
    bit_ops::set_crumb(word, 2, 0) >> text_bits(offset)
}

// Whether packet p is there, with a head like the first except for its format.
#[tactic(auto, unfolding(crate::specs::OnePass::like_first))]
fn like_first(words: &[u32], offset: usize, p: PacketNumber) -> bool
    ensures { result ≡ like_first words.now offset p.0 }
{
    p.0 < packets_of(words).0 && head_bits(head_at(words, p), offset) == head_bits(words[0], offset)
}

// The number of packets if packet p, with this format, is the last one.
#[tactic(auto, unfolding(crate::specs::OnePass::ends_at))]
fn ends_at(format: u8, p: PacketNumber) -> Option<PacketNumber>
    requires { p.0 < 64 }
    ensures { result ≡ ends_at «format» p.0 }
{
    let n = PacketNumber(p.0 + 1);
    if format == due_format(n, p) {
        return Some(n);
    }
    None
}

// The number of packets of the message at the start of the words, if no head is wrong.
pub(crate) fn headed_packets(words: &[u32], offset: usize) -> Option<PacketNumber>
    ensures { result ≡ headed_packets words.now offset }
{
    if words.is_empty() {
        return None;
    }
    if type_of(words[0]) != 15 {
        return None;
    }
    for p in 0..64 {
        let at = PacketNumber(p);
        if !like_first(words, offset, at) {
            return None;
        }
        let format = format_of(head_at(words, at));
        if format != due_format(PacketNumber(p + 2), at) {
            return ends_at(format, at);
        }
    }
    None
}
