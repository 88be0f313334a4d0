// The whole text of one message, copied into a lent byte buffer. A call that does not copy leaves the buffer as it is.
#![tactic(auto)]

ghost use Rattle.std.specs.Prelude.{◌≡◌, ◌-◌, ◌/◌, ◌<◌, length};
ghost use Rattle.text.specs.Bytes.{text_of};
ghost use Rattle.text_copy.specs.declared.NotCopied.TheVariants.{Refused};
ghost use Rattle.text_copy.specs.Copied.{copy_text, copy_kind, copy_on};

use crate::count::text_length;
use crate::put::put_packets;
use counts::TextByteNumber;
use kinds::kind::Kind;
use kinds::refusal::Refusal;
use reading::message::read;
use records::message::kind_in;
use text::packets::packets_of;

mod count;
mod put;
mod words;

// Why no text is copied: the buffer has no room for a text of this length, or there is no text.
#[derive(Clone, Copy)]
pub enum NotCopied {
    NoRoom(TextByteNumber),
    Refused(Refusal),
}

impl From<Refusal> for NotCopied {
    ghost from_gives = { λ refusal r. r ≡ Refused refusal };

    fn from(refusal: Refusal) -> NotCopied {
        NotCopied::Refused(refusal)
    }
}

// The offset is a number passed in, 0 or 1 as the kind says: so three functions ask for one below 2, and no type holds it.
// Copies the text of the packets. Fast path: a buffer with room for full packets needs no count of the text.
fn copy_packets(words: &[u32], offset: usize, out: &mut [u8]) -> Result<TextByteNumber, NotCopied>
    requires { offset < 2 }
    ensures answer { result ≡ (copy_text (text_of words.now (14 - offset) (length words.now / 4)) out.old).answer }
    ensures bytes { out.new ≡ (copy_text (text_of words.now (14 - offset) (length words.now / 4)) out.old).bytes }
{
    if out.len() < packets_of(words).0 * 14 {
        let length = text_length(words, offset);
        if out.len() < length {
            return Err(NotCopied::NoRoom(TextByteNumber(length)));
        }
    }
    Ok(TextByteNumber(put_packets(out, words, offset)))
}

// Copies the text of words as those of a kind; whether they are a message is not looked at.
#[tactic(auto, unfolding(kinds::specs::Layout::layout))]
pub fn copy_kind(kind: Kind, words: &[u32], out: &mut [u8]) -> Result<TextByteNumber, NotCopied>
    ensures answer { result ≡ (copy_kind kind words.now out.old).answer }
    ensures bytes { out.new ≡ (copy_kind kind words.now out.old).bytes }
{
    match kind {
        Kind::EndpointName | Kind::ProductInstanceId => copy_packets(words, 0, out),
        Kind::FunctionBlockName => copy_packets(words, 1, out),
        _ => Err(NotCopied::Refused(Refusal::NoSuchField)),
    }
}

// Reads the words as one message and copies its text to the start of the buffer.
#[tactic(auto, unfolding(crate::specs::Copied::copy_on))]
pub fn copy_text(words: &[u32], out: &mut [u8]) -> Result<TextByteNumber, NotCopied>
    ensures answer { result ≡ (copy_on words.now out.old).answer }
    ensures bytes { out.new ≡ (copy_on words.now out.old).bytes }
{
    let message = read(words)?;
    copy_kind(kind_in(message), words, out)
}
