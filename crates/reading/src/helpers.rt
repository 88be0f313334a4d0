// Helpers of the crates above, not for callers of the library: the walk reads what it has framed, settings of text find their message.
ghost use Rattle.std.specs.Prelude.{◌≡◌, ◌≤◌, length};
ghost use Rattle.reading.specs.Bodies.{offset_of};
ghost use Rattle.reading.specs.Framed.{framed_kind, framed_read};
ghost use Rattle.reading.specs.OnePass.{seen_text, text_packets};

use crate::heads::status_of;
use crate::message::{most_packets, read_fields};
use crate::one_pass::headed_packets;
use counts::{PacketNumber, first_word};
use kinds::kind::Kind;
use kinds::refusal::Refusal;
use records::message::Message;
use table::rows::{kind_of, row_of};
use text::packets::packets_of;
use text_check::good_text;

// How many octets after octet 2 the text of a kind starts: 0 or 1. `% 2` lets the compiler know.
pub fn offset_of(kind: Kind) -> usize
    ensures { result ≡ offset_of kind }
{
    let row = row_of(kind);
    row.text_offset % 2
}

// The number of packets of a text message at the start of the words, if no head is wrong and its text is UTF-8.
fn seen_text(words: &[u32], offset: usize) -> Option<PacketNumber>
    ensures { result ≡ seen_text words.now offset }
{
    let packets = headed_packets(words, offset)?;
    let to = first_word(packets).0;
    if !good_text(&words[..to], offset) {
        return None;
    }
    Some(packets)
}

// The same for a kind; `None` for a kind without text. The compiler makes a loop for each offset.
pub fn text_packets(kind: Kind, words: &[u32]) -> Option<PacketNumber>
    ensures { result ≡ text_packets kind words.now }
{
    let row = row_of(kind);
    if row.most_packets == 1 {
        return None;
    }
    if offset_of(kind) == 0 {
        return seen_text(words, 0);
    }
    seen_text(words, 1)
}

// Refusal 7 for a fixed kind in several packets, then 8 to 11, else the record.
#[tactic(auto, unfolding(crate::specs::Framed::framed_kind))]
fn read_framed_kind(kind: Kind, words: &[u32]) -> Result<Message, Refusal>
    requires { 4 ≤ length words.now }
    ensures { result ≡ framed_kind kind words.now }
{
    if most_packets(kind).0 < packets_of(words).0 {
        return Err(Refusal::WrongFormat(PacketNumber(1)));
    }
    read_fields(kind, words)
}

// For the walk: reads a message that it has framed, so no type, status or format is checked again. Refusal 5, 7 for a fixed kind in several packets, 8 to 11, else the record.
#[tactic(auto, unfolding(crate::specs::Framed::framed_read))]
pub fn read_framed(words: &[u32]) -> Result<Message, Refusal>
    ensures { result ≡ framed_read words.now }
{
    if words.len() < 4 {
        return Err(Refusal::TooFewWords);
    }
    let Some(kind) = kind_of(status_of(words[0])) else {
        return Err(Refusal::UnknownStatus);
    };
    read_framed_kind(kind, words)
}
