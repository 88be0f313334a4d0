// What a setting of a text kind finds at word position 0, with fast paths for messages whose heads are right.
ghost use Rattle.std.specs.Prelude.{◌≡◌};
ghost use Rattle.kinds.specs.Layout.{layout};
ghost use Rattle.standard.specs.Walk.{walk_of};
ghost use Rattle.settings.specs.Target.{target_of};
ghost use Rattle.text_settings.specs.Texts.{single_ascii, SingleHead};

use counts::PacketNumber;
use kinds::kind::Kind;
use kinds::refusal::Refusal;
use reading::heads::status_of;
use reading::helpers::text_packets;
use settings::helpers::find_target;
use table::rows::row_of;
use text_check::helpers::ascii_packet;

// Whether the first packet has the type, format and status of this head, and its text is ASCII.
#[tactic(auto, unfolding(crate::specs::Texts::single_ascii))]
fn is_single_ascii_packet(words: &[u32], head: u32) -> bool
    ensures { result ≡ single_ascii words.now head }
{
    if words.len() < 4 {
        return false;
    }
    if words[0] / 0x10000 != head / 0x10000 {
        return false;
    }
    ascii_packet(words, 0, PacketNumber(0))
}

// The packets of a message of this kind, or why a setting of it is refused. Fast path: one pass over the heads.
#[tactic(auto, using(crate::proofs::Targets::seen_target))]
pub(crate) fn find_text_target(words: &[u32], kind: Kind) -> Result<PacketNumber, Refusal>
    ensures { result ≡ target_of (layout kind).status (walk_of words.now 0) }
{
    if words.len() != 0 {
        if status_of(words[0]) == row_of(kind).status {
            if let Some(packets) = text_packets(kind, words) {
                return Ok(packets);
            }
        }
    }
    find_target(words, row_of(kind).status)
}

// Fast path: if a single ASCII packet stands there, no other check is needed.
#[tactic(auto, using(crate::proofs::Singles::single_target))]
pub(crate) fn find_target_fast(
    words: &[u32],
    kind: Kind,
    head: u32,
) -> Result<PacketNumber, Refusal>
    requires { SingleHead kind head }
    ensures { result ≡ target_of (layout kind).status (walk_of words.now 0) }
{
    if is_single_ascii_packet(words, head) {
        return Ok(PacketNumber(1));
    }
    find_text_target(words, kind)
}
