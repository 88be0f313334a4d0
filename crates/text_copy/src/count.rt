// The length of a text, before a byte of it is put.
ghost use Rattle.std.specs.Prelude.{◌≡◌, ◌-◌, ◌/◌, ◌<◌, ◌≤◌, length};
ghost use Rattle.std.specs.Prelude.{not, ◌==◌};
ghost use Rattle.std.specs.List.{count_by};
ghost use Rattle.std.specs.Int.{w32, to_be_bytes};
ghost use Rattle.laws.specs.Lists.{nonzero};
ghost use Rattle.text.specs.Bytes.{text_of};
ghost use Rattle.text_copy.specs.Words.{octets_of, packet_text};

use crate::words::text_words;
use counts::PacketNumber;
use records::packet::Packet;
use text::packets::packets_of;

// How many octets of a word are not zero. Four sums: counted over an iterator, a long text takes 2.6 times as long to measure.
fn word_length(w: u32) -> usize
    ensures value { result ≡ count_by (λ x. not (x == 0)) (to_be_bytes w32 w) }
    ensures small { result ≤ 4 }
{
    let [a, b, c, d] = w.to_be_bytes();
    usize::from(a != 0) + usize::from(b != 0) + usize::from(c != 0) + usize::from(d != 0)
}

// How many octets of a packet's four words are not zero.
#[tactic(auto, using(crate::proofs::Packets::word_count, crate::proofs::Packets::four_lengths))]
fn packet_length(packet: Packet) -> usize
    ensures value { result ≡ length (packet_text packet) }
    ensures small { result ≤ 16 }
{
    word_length(packet.0) + word_length(packet.1) + word_length(packet.2) + word_length(packet.3)
}

// The length of the text of all packets.
pub(crate) fn text_length(words: &[u32], offset: usize) -> usize
    requires { offset < 2 }
    ensures { result ≡ length (text_of words.now (14 - offset) (length words.now / 4)) }
{
    let mut count = 0;
    for p in 0..packets_of(words).0 {
        count += packet_length(text_words(words, PacketNumber(p), offset));
    }
    count
}
