// The fast check of text in packets: each word is masked so that only text is left. Where a look does not tell what a word is, the scan takes its bytes. The number between words is that of by_scan.rt.
ghost use Rattle.std.specs.Prelude.{◌≡◌, ◌-◌, ◌/◌, ◌<◌, length};
ghost use Rattle.utf8.specs.Utf8.{first_bad};
ghost use Rattle.text.specs.Bytes.{text_of};
ghost use Rattle.text_check.specs.FastCheck.{is_good, after_word, text_mask, text_masks, text_words, AsciiStart};

use crate::ascii::{ascii_word, ascii_words};
use crate::by_scan::{BAD, after_word_by_scan};
use crate::three_byte_runs::{octets, run_of_four, run_of_one, run_of_twelve, run_of_two};
use counts::{PacketNumber, WordNumber};

// The number after w, the first word of a packet: at most two of its octets are text, and one in a block name.
fn after_first_word(s: u64, w: u32) -> u64
    ensures { result ≡ after_word s w }
{
    if run_of_two(s, w / 0x100, w % 0x100) {
        (s + 1) % 3
    } else if run_of_one(s, w) {
        (s + 2) % 3
    } else {
        after_word_by_scan(s, w)
    }
}

// The number after w, another word of a packet. The text may end in it, and then its second half is zero.
#[tactic(auto, unfolding(text::specs::Octets::octet_of))]
fn after_word(s: u64, w: u32) -> u64
    ensures { result ≡ after_word s w }
{
    if run_of_four(s, w) {
        return (s + 2) % 3;
    }
    if s == 0 && ascii_word(w) {
        return 0;
    }
    let [a, b, _, _] = octets(w);
    if w % 0x10000 == 0 && run_of_two(s, a, b) {
        return (s + 1) % 3;
    }
    after_word_by_scan(s, w)
}

// The number after three words.
fn after_three_words(s: u64, a: u32, b: u32, c: u32) -> u64
    ensures { result ≡ after_word (after_word (after_word s a) b) c }
{
    if run_of_twelve(s, a, b, c) {
        return s;
    }
    after_word(after_word(after_word(s, a), b), c)
}

// The number after the four words of a packet.
fn after_packet(s: u64, a: u32, b: u32, c: u32, d: u32) -> u64
    ensures { result ≡ after_word (after_word (after_word (after_word s a) b) c) d }
{
    if s == 0 && ascii_words(a, b, c, d) {
        return 0;
    }
    after_three_words(after_first_word(s, a), b, c, d)
}

// The mask that keeps a word's text: its last (end - offset) octets, at most four.
#[tactic(auto, unfolding(crate::specs::FastCheck::text_mask, crate::specs::FastCheck::mask_bits))]
fn text_mask(end: usize, offset: usize) -> u32
    ensures { result ≡ text_mask end offset }
{
    match end.saturating_sub(offset) {
        0 => 0,
        1 => 0xFF,
        2 => 0xFFFF,
        3 => 0xFFFFFF,
        _ => 0xFFFFFFFF,
    }
}

// The masks of a packet's four words: up to their ends a packet has 2, 6, 10 and 14 octets that can be text.
pub(crate) fn text_masks(offset: usize) -> [u32; 4]
    ensures { result ≡ text_masks offset }
{
    [
        text_mask(2, offset),
        text_mask(6, offset),
        text_mask(10, offset),
        text_mask(14, offset),
    ]
}

// The text octets of a packet's four words, and zeros for the others.
pub(crate) fn text_words(words: &[u32], masks: [u32; 4], packet: PacketNumber) -> [u32; 4]
    requires { packet.0 < length words.now / 4 }
    ensures { result ≡ text_words words.now masks packet.0 }
{
    let [a, b, c, d] = masks;
    let k = counts::first_word(packet).0;
    [
        words[k] & a,
        words[k + 1] & b,
        words[k + 2] & c,
        words[k + 3] & d,
    ]
}

// Fast path: the number of packets at the start whose text is all ASCII. They leave no character open.
fn leading_ascii_packets(words: &[u32], offset: usize) -> PacketNumber
    ensures { AsciiStart words.now offset result.0 }
{
    let packets = counts::whole_packets(WordNumber(words.len()));
    let masks = text_masks(offset);
    for p in 0..packets.0 {
        let [a, b, c, d] = text_words(words, masks, PacketNumber(p));
        if !ascii_words(a, b, c, d) {
            return PacketNumber(p);
        }
    }
    packets
}

// Whether the text of the whole packets is UTF-8.
pub(crate) fn is_good(words: &[u32], offset: usize) -> bool
    ensures { result ≡ is_good (first_bad (text_of words.now (14 - offset) (length words.now / 4))) }
{
    let packets = counts::whole_packets(WordNumber(words.len()));
    let masks = text_masks(offset);
    let plain = leading_ascii_packets(words, offset);
    let mut s: u64 = 0;
    for p in plain.0..packets.0 {
        let [a, b, c, d] = text_words(words, masks, PacketNumber(p));
        s = after_packet(s, a, b, c, d);
        if s == BAD {
            return false;
        }
    }
    s % 0x100 == 0
}
