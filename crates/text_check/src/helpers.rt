// A helper of settings of text, not for callers of the library: a look at one packet.
ghost use Rattle.std.specs.Prelude.{◌≡◌};
ghost use Rattle.text_check.specs.FastCheck.{ascii_packet};

use crate::ascii::ascii_words;
use crate::words::{text_masks, text_words};
use counts::{PacketNumber, WordNumber};

// Whether a packet exists and its text is all ASCII or zero.
#[tactic(auto, unfolding(crate::specs::FastCheck::ascii_packet))]
pub fn ascii_packet(words: &[u32], offset: usize, packet: PacketNumber) -> bool
    ensures { result ≡ ascii_packet words.now offset packet.0 }
{
    let packets = counts::whole_packets(WordNumber(words.len()));
    if packets.0 <= packet.0 {
        return false;
    }
    let [a, b, c, d] = text_words(words, text_masks(offset), packet);
    ascii_words(a, b, c, d)
}
