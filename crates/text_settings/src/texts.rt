// Sets text in packets, by the row of its kind: first why it may be refused, then the writing.
ghost use Rattle.std.specs.Prelude.{◌≡◌};
ghost use Rattle.text.specs.Octets.{needed};
ghost use Rattle.text_settings.specs.Texts.{SingleHead, room_of, plan_of, text_on};

use crate::target::find_target_fast;
use buffer::texts::fill_text;
use counts::{PacketNumber, TextByteNumber};
use kinds::kind::Kind;
use kinds::refusal::Refusal;
use reading::helpers::offset_of;
use text::packets::{packets_needed, packets_of};
use text_check::check_utf8;

// Refusals 3 and 14, or the packets needed for this many bytes.
#[tactic(auto, unfolding(crate::specs::Texts::room_of))]
fn find_room(
    bytes: TextByteNumber,
    capacity: usize,
    room: PacketNumber,
) -> Result<PacketNumber, Refusal>
    ensures { result ≡ room_of (needed capacity bytes.0) room.0 }
{
    let needed = packets_needed(bytes, capacity);
    if PacketNumber(64) < needed {
        return Err(Refusal::TooManyPackets);
    }
    if room < needed {
        return Err(Refusal::NoRoom);
    }
    Ok(needed)
}

// Refusals 11, 3 and 14, or the packets that the text needs.
#[tactic(auto, unfolding(crate::specs::Texts::plan_of))]
fn plan_text(text: &[u8], capacity: usize, room: PacketNumber) -> Result<PacketNumber, Refusal>
    ensures { result ≡ plan_of text.now capacity room.0 }
{
    if check_utf8(text).is_err() {
        return Err(Refusal::NotUtf8);
    }
    find_room(TextByteNumber(text.len()), capacity, room)
}

// The refusals of the target, then of the plan; else the text goes into each needed packet, with this head.
#[tactic(auto, unfolding(crate::specs::Texts::text_on), using(reading::proofs::TextRows::offset_few, reading::proofs::TextRows::text_capacity))]
pub(crate) fn set_text(words: &mut [u32], kind: Kind, head: u32, text: &[u8]) -> Result<(), Refusal>
    requires { SingleHead kind head }
    ensures answer { result ≡ (text_on kind head text.now words.old).answer }
    ensures buffer { words.new ≡ (text_on kind head text.now words.old).words }
{
    find_target_fast(words, kind, head)?;
    let offset = offset_of(kind);
    let packets = plan_text(text, 14 - offset, packets_of(words))?;
    fill_text(words, text, offset, head, packets);
    Ok(())
}
