// Putting text into the buffer: every octet of the packets' text that is not zero.
ghost use Rattle.std.specs.Prelude.{◌≡◌, true, ◌+◌, ◌-◌, ◌/◌, ◌<◌, ◌≤◌, length};
ghost use Rattle.laws.specs.Lists.{nonzero};
ghost use Rattle.text.specs.Bytes.{text_of};
ghost use Rattle.ascii_lines.specs.Page.{Wrote};
ghost use Rattle.text_copy.specs.Words.{octets_of, packet_text};

use crate::words::text_words;
use counts::PacketNumber;
use records::packet::Packet;
use text::packets::packets_of;

// All four octets of a word. LLVM makes one store of the four.
fn put_four(out: &mut [u8], at: usize, w: u32) -> usize
    requires { at + 4 ≤ length out.old }
    ensures { Wrote at out.old (octets_of w) result out.new }
{
    out[at..at + 4].copy_from_slice(&w.to_be_bytes());
    at + 4
}

// The place goes by value here: through a `Writer` the loop over packets took 1.33 times the instructions.
// The octets of a word one by one, without zeros.
fn put_each(out: &mut [u8], at: usize, w: u32) -> usize
    ensures { Wrote at out.old (nonzero (octets_of w)) result out.new }
{
    let mut end = at;
    for octet in w.to_be_bytes() {
        if octet != 0 && end < out.len() {
            out[end] = octet;
            end += 1;
        }
    }
    end
}

// Whether no octet of a word is zero.
fn no_zero(w: u32) -> bool
    ensures { result ≡ true → nonzero (octets_of w) ≡ octets_of w }
{
    w.to_be_bytes().iter().all(|&octet| octet != 0)
}

// The octets of a word without zeros. Fast path: a word without zeros, and room for it.
fn put_word(out: &mut [u8], at: usize, w: u32) -> usize
    ensures { Wrote at out.old (nonzero (octets_of w)) result out.new }
{
    if no_zero(w) && at < out.len() && 4 <= out.len() - at {
        return put_four(out, at, w);
    }
    put_each(out, at, w)
}

// The octets of a packet's four words without zeros.
fn put_packet(out: &mut [u8], at: usize, packet: Packet) -> usize
    ensures { Wrote at out.old (packet_text packet) result out.new }
{
    let a = put_each(out, at, packet.0);
    let b = put_word(out, a, packet.1);
    let c = put_word(out, b, packet.2);
    put_word(out, c, packet.3)
}

// The text of all packets from the start of the buffer on; its end.
pub(crate) fn put_packets(out: &mut [u8], words: &[u32], offset: usize) -> usize
    requires { offset < 2 }
    ensures { Wrote 0 out.old (text_of words.now (14 - offset) (length words.now / 4)) result out.new }
{
    let mut at = 0;
    for p in 0..packets_of(words).0 {
        at = put_packet(out, at, text_words(words, PacketNumber(p), offset));
    }
    at
}
