// A helper of settings, here and in text_settings, not for callers of the library: what a setting finds at word position 0, a message of its kind or why it is refused.
ghost use Rattle.std.specs.Prelude.{◌≡◌};
ghost use Rattle.standard.specs.Walk.{walk_of};
ghost use Rattle.settings.specs.Target.{own_in, target_of};

use counts::{PacketNumber, WordNumber};
use kinds::refusal::Refusal;
use records::answers::Walked;
use records::message::{Message, kind_in, packets_in};
use table::rows::row_of;

// The packets of a message, if it is of the kind with this status.
#[tactic(auto, unfolding(crate::specs::Target::own_in))]
fn own_message(message: Message, status: u32) -> Result<PacketNumber, Refusal>
    ensures { result ≡ own_in status message }
{
    if row_of(kind_in(message)).status != status {
        return Err(Refusal::NoSuchField);
    }
    Ok(packets_in(message))
}

// The packets of the message, or what the walk refuses at 0, then 13. By status and not by kind, since it answers for any number.
pub fn find_target(words: &[u32], status: u32) -> Result<PacketNumber, Refusal>
    ensures { result ≡ target_of status (walk_of words.now 0) }
{
    match walking::walk(words, WordNumber(0)) {
        Walked::End => Err(Refusal::TooFewWords),
        Walked::Other { .. } => Err(Refusal::WrongType(PacketNumber(0))),
        Walked::Refused { refusal, .. } => Err(refusal),
        Walked::Message { message, .. } => own_message(message, status),
    }
}
