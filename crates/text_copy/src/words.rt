// The words of a packet as text.
ghost use Rattle.std.specs.Prelude.{◌≡◌, ◌/◌, ◌<◌, length};
ghost use Rattle.text_copy.specs.Words.{first_text, text_words_at};

use counts::{PacketNumber, first_word};
use records::packet::Packet;

// A packet's first word with zeros in place of what is not text.
#[tactic(auto, unfolding(crate::specs::Words::first_text))]
fn first_text(w: u32, offset: usize) -> u32
    ensures { result ≡ first_text w offset }
{
    if offset == 0 {
        return w % 0x10000;
    }
    w % 0x100
}

// A packet with zeros in place of what is not text.
pub(crate) fn text_words(words: &[u32], packet: PacketNumber, offset: usize) -> Packet
    requires { packet.0 < length words.now / 4 }
    ensures { result ≡ text_words_at words.now offset packet.0 }
{
    let k = first_word(packet).0;
    Packet(
        first_text(words[k], offset),
        words[k + 1],
        words[k + 2],
        words[k + 3],
    )
}
