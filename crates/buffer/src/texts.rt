// Writing text into the whole packets of a buffer: the head of each, the text, and zeros after its end.
ghost use Rattle.std.specs.Prelude.{◌≡◌, ℕ, ◌+◌, ◌-◌, ◌*◌, ◌/◌, ◌^◌, ◌<◌, ◌≤◌, length, get_or, leb};
ghost use Rattle.laws.specs.Bits.{word_of};
ghost use Rattle.laws.specs.Lists.{up_to};
ghost use Rattle.counts.specs.Counts.{byte_of_text};
ghost use Rattle.text.specs.Octets.{due_format};
ghost use Rattle.text.specs.Written.{octet_at, word_in, word_new};
ghost use Rattle.buffer.specs.Acts.{packet_words, packet_set, formatted, fill_text};

use crate::packets::clear_from;
use counts::{PacketNumber, TextByteNumber, WordNumber, first_word, whole_packets};
use fields::Bits;
use text::big_endian::big_endian;
use text::packets::due_format;

// Where a head has its format.
const FORMAT: Bits = Bits { low: 26, width: 2 };

// Byte i of the text; 0 past its end.
fn byte_at(text: &[u8], i: usize) -> u8
    ensures { result ≡ get_or text.now i 0 }
{
    text.get(i).copied().unwrap_or(0)
}

// The four bytes of the text from byte i on as a word; 0 past its end. The test for a word past the end saves four others.
#[tactic(auto, unfolding(text::specs::BigEndian::big_endian_at))]
fn four_bytes(text: &[u8], i: usize) -> u32
    requires { i < 1000 }
    ensures { result ≡ word_of (get_or text.now i 0) (get_or text.now (i + 1) 0) (get_or text.now (i + 2) 0) (get_or text.now (i + 3) 0) }
{
    if i + 4 <= text.len() {
        return big_endian(text, i);
    }
    if text.len() <= i {
        return 0;
    }
    u32::from_be_bytes([
        byte_at(text, i),
        byte_at(text, i + 1),
        byte_at(text, i + 2),
        byte_at(text, i + 3),
    ])
}

// The first octets of the head, and after them the first of four text bytes.
fn joined(head: u32, octets: usize, bytes: u32) -> u32
    requires { octets ≤ 4 }
    ensures { result ≡ head / 2 ^ (32 - octets * 8) * 2 ^ (32 - octets * 8) + bytes / 2 ^ (octets * 8) }
{
    let w = head as u64;
    let low = 1 << (32 - octets * 8);
    (w / low * low + (bytes as u64 >> (octets * 8))) as u32
}

// One packet of a text: its text starts at octet 2 + offset.
#[derive(Clone, Copy)]
struct TextPacket {
    offset: usize,
    head: u32,
    number: PacketNumber,
    ghost small: { (offset < 14) × (number.0 < 64) },
}

impl TextPacket {
    // The byte of the whole text that is this byte of the packet's text.
    fn byte_of_text(self, byte: TextByteNumber) -> TextByteNumber
        requires { byte.0 < 14 }
        ensures value { result ≡ byte_of_text (14 - self.offset) self.number byte }
        ensures small { result.0 < 900 }
    {
        TextByteNumber(self.number.0 * (14 - self.offset) + byte.0)
    }

    // Octet j: the octets of the head, then zeros, then the text.
    #[tactic(auto, unfolding(text::specs::Octets::octet_of), using(crate::proofs::Octets::before_text, crate::proofs::Octets::in_head, crate::proofs::Octets::in_text))]
    fn octet(self, text: &[u8], j: usize) -> u8
        requires { j < 16 }
        ensures { result ≡ octet_at text.now (λ f. self.head) (14 - self.offset) 0 self.number.0 j }
    {
        if 2 + self.offset <= j {
            let b = self.byte_of_text(TextByteNumber(j - (2 + self.offset)));
            return byte_at(text, b.0);
        }
        if 4 <= j {
            return 0;
        }
        ((self.head >> (24 - j * 8)) % 256) as u8
    }

    // Word q, octet by octet.
    #[tactic(auto, unfolding(text::specs::Written::word_in))]
    fn word(self, text: &[u8], q: usize) -> u32
        requires { q < 4 }
        ensures { result ≡ word_in text.now (λ f. self.head) (14 - self.offset) 0 self.number.0 q }
    {
        let j = q * 4;
        u32::from_be_bytes([
            self.octet(text, j),
            self.octet(text, j + 1),
            self.octet(text, j + 2),
            self.octet(text, j + 3),
        ])
    }

    // The four words, for any offset.
    fn words_by_octets(self, text: &[u8]) -> [u32; 4]
        ensures { result ≡ packet_words text.now self.offset self.head self.number.0 }
    {
        [
            self.word(text, 0),
            self.word(text, 1),
            self.word(text, 2),
            self.word(text, 3),
        ]
    }

    // Whether the text has a byte for each octet after the start.
    fn is_full(self, text: &[u8]) -> bool
        ensures { result ≡ leb (self.number.0 * (14 - self.offset) + (14 - self.offset)) (length text.now) }
    {
        let start = self.byte_of_text(TextByteNumber(0));
        start.0 + (14 - self.offset) <= text.len()
    }

    // The four words where the text fills the packet and starts within the first word or right after it: the last three are twelve bytes of the text.
    fn words_of_text(self, text: &[u8]) -> [u32; 4]
        requires { (self.offset ≤ 2) × (self.number.0 * (14 - self.offset) + (14 - self.offset) ≤ length text.now) }
        ensures { result ≡ packet_words text.now self.offset self.head self.number.0 }
    {
        let start = self.byte_of_text(TextByteNumber(0)).0;
        let from = start + (2 - self.offset);
        let lead = &text[start..start + 4];
        let part = &text[from..from + 12];
        [
            joined(self.head, 2 + self.offset, big_endian(lead, 0)),
            big_endian(part, 0),
            big_endian(part, 4),
            big_endian(part, 8),
        ]
    }

    // The same where the text ends in the packet or before it: zeros after the text.
    fn words_at_end(self, text: &[u8]) -> [u32; 4]
        requires { self.offset ≤ 2 }
        ensures { result ≡ packet_words text.now self.offset self.head self.number.0 }
    {
        let start = self.byte_of_text(TextByteNumber(0)).0;
        let from = start + (2 - self.offset);
        [
            joined(self.head, 2 + self.offset, four_bytes(text, start)),
            four_bytes(text, from),
            four_bytes(text, from + 4),
            four_bytes(text, from + 8),
        ]
    }
}

// Writes the four words of a packet. One by one: `copy_from_slice` has more instructions here, to test whether the two overlap.
fn put_words(words: &mut [u32], packet: PacketNumber, four: [u32; 4])
    requires { packet.0 * 4 + 4 ≤ length words.old }
    ensures { words.new ≡ packet_set (λ q. get_or four q 0) (packet.0 * 4) words.old }
{
    let k = first_word(packet).0;
    words[k] = four[0];
    words[k + 1] = four[1];
    words[k + 2] = four[2];
    words[k + 3] = four[3];
}

// The packets of a text: it starts at octet 2 + offset of each, and their heads differ in the format alone.
#[derive(Clone, Copy)]
struct TextPackets {
    offset: usize,
    head: u32,
    count: PacketNumber,
    ghost small: { (offset < 14) × (count.0 ≤ 64) },
}

impl TextPackets {
    // One of them.
    fn packet(self, number: PacketNumber) -> TextPacket
        requires { number.0 < self.count.0 }
        ensures number { result.number ≡ number }
        ensures offset { result.offset ≡ self.offset }
        ensures head { result.head ≡ formatted self.head (due_format self.count.0 number.0) }
    {
        let format = due_format(self.count, number);
        TextPacket {
            offset: self.offset,
            head: FORMAT.put(self.head, format as u32),
            number,
        }
    }

    // Writes the packets up to the one that the text ends in, if it starts within their first words or right after them. Returns how many.
    fn fill_near(self, words: &mut [u32], text: &[u8], n: PacketNumber) -> PacketNumber
        requires { (n.0 ≤ self.count.0) × (n.0 * 4 ≤ length words.old) }
        ensures words_after { words.new ≡ up_to (result.0 * 4) (word_new text.now (formatted self.head) (14 - self.offset) self.count.0) words.old }
        ensures within { result.0 ≤ n.0 }
    {
        if 2 < self.offset {
            return PacketNumber(0);
        }
        for p in 0..n.0 {
            let packet = self.packet(PacketNumber(p));
            if !packet.is_full(text) {
                put_words(words, packet.number, packet.words_at_end(text));
                return PacketNumber(p + 1);
            }
            put_words(words, packet.number, packet.words_of_text(text));
        }
        n
    }

    // Writes the packets from one on, for any offset; those before it are written. Seldom called: inlined, it would take registers from `fill_near`.
    #[inline(never)]
    fn fill_rest(self, words: &mut [u32], text: &[u8], from: PacketNumber, n: PacketNumber)
        requires room { (from.0 ≤ n.0) × (n.0 ≤ self.count.0) × (n.0 * 4 ≤ length words.old) }
        requires done { (k : ℕ) → k < from.0 * 4 → word_new text.now (formatted self.head) (14 - self.offset) self.count.0 k ≡ get_or words.old k 0 }
        ensures { words.new ≡ up_to (n.0 * 4) (word_new text.now (formatted self.head) (14 - self.offset) self.count.0) words.old }
    {
        for p in from.0..n.0 {
            let packet = self.packet(PacketNumber(p));
            put_words(words, packet.number, packet.words_by_octets(text));
        }
    }
}

// Writes the text into some packets, starting at octet 2 + offset of each, and clears every whole packet after them.
#[tactic(auto, unfolding(crate::specs::Acts::fill_text, text::specs::Written::written))]
pub fn fill_text(words: &mut [u32], text: &[u8], offset: usize, head: u32, packets: PacketNumber)
    ensures { words.new ≡ fill_text text.now offset head packets.0 words.old }
{
    if 14 <= offset || 64 < packets.0 {
        return;
    }
    let all = TextPackets {
        offset,
        head,
        count: packets,
    };
    let whole = whole_packets(WordNumber(words.len()));
    let n = packets.min(whole);
    let done = all.fill_near(words, text, n);
    if done < n {
        all.fill_rest(words, text, done, n);
    }
    clear_from(words, first_word(n));
}
