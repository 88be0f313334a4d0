// The packets of a slice and of a text message: how many there are, the first word and the format of each.
ghost use Rattle.std.specs.Prelude.{◌≡◌, length};
ghost use Rattle.counts.specs.Counts.{packet, word, whole_packets};
ghost use Rattle.text.specs.Octets.{needed, due_format};
ghost use Rattle.text.specs.Heads.{head_in};

use counts::{PacketNumber, TextByteNumber, WordNumber, first_word, whole_packets};

// The number of whole packets in a slice.
pub fn packets_of(words: &[u32]) -> PacketNumber
    ensures { result ≡ whole_packets (word (length words.now)) }
{
    whole_packets(WordNumber(words.len()))
}

// The first word of a packet; 0 if the slice has no such whole packet.
// No Option: each caller has tested the number of packets, and would have to name a 0 of its own.
#[tactic(auto, unfolding(crate::specs::Heads::head_in))]
pub fn head_at(words: &[u32], packet: PacketNumber) -> u32
    ensures { result ≡ head_in words.now packet }
{
    if packets_of(words) <= packet {
        return 0;
    }
    let k = first_word(packet).0;
    words[k]
}

// Packets needed for a number of bytes: 1 for empty text, otherwise bytes divided by capacity, rounded up. The first test avoids the division for short text.
#[tactic(auto, using(crate::proofs::Needed::needed_few, crate::proofs::Needed::needed_without, crate::proofs::Needed::needed_last))]
pub fn packets_needed(bytes: TextByteNumber, capacity: usize) -> PacketNumber
    ensures { result ≡ packet (needed capacity bytes.0) }
{
    if bytes.0 <= capacity {
        return PacketNumber(1);
    }
    if capacity == 0 {
        return PacketNumber(0);
    }
    PacketNumber((bytes.0 - 1) / capacity + 1)
}

// The format of packet `p` of `n`. A number, since it is only put into two bits of a head or compared with them.
#[tactic(auto, unfolding(crate::specs::Octets::due_format))]
pub fn due_format(n: PacketNumber, p: PacketNumber) -> u8
    ensures { result ≡ due_format n.0 p.0 }
{
    if n.0 <= 1 {
        return 0;
    }
    if p.0 == 0 {
        return 1;
    }
    if p.0 < n.0 - 1 {
        return 2;
    }
    3
}
