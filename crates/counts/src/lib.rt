// Three kinds of count, each its own type so that they cannot be mixed up. They turn into one another by these functions, whose formulas are in specs/Counts.antt.
#![tactic(auto)]

ghost use Rattle.std.specs.Prelude.{◌≡◌};
ghost use Rattle.counts.specs.Counts.{first_word, whole_packets, wrapped};

// A packet of a message, or a number of packets.
#[derive(Clone, Copy, PartialEq, Eq, PartialOrd, Ord)]
pub struct PacketNumber(pub usize);

// A word of a slice, or a number of words.
#[derive(Clone, Copy)]
pub struct WordNumber(pub usize);

// A byte of a text, or of one packet's text.
#[derive(Clone, Copy)]
pub struct TextByteNumber(pub usize);

// The number of whole packets in this many words.
pub fn whole_packets(words: WordNumber) -> PacketNumber
    ensures { result ≡ whole_packets words }
{
    PacketNumber(words.0 / 4)
}

// The first word of a packet. The product may wrap, so that every packet has one; no packet that a slice can hold has one that wraps.
pub fn first_word(packet: PacketNumber) -> WordNumber
    ensures { result ≡ wrapped (first_word packet) }
{
    WordNumber(packet.0.wrapping_mul(4))
}
