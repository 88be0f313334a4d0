// The first packet that passes a test: reading's rules over all packets go by it.
ghost use Rattle.std.specs.Prelude.{◌≡◌, ℕ, Bool};
ghost use Rattle.standard.specs.Heads.{packets_of};
ghost use Rattle.reading.specs.Rules.{Tells, first_packet};

use counts::PacketNumber;
use text::packets::{head_at, packets_of};

// The first packet that passes a test of its first word and its number, if one does.
#[tactic(auto, unfolding(laws::specs::First::first))]
pub(crate) fn first_packet<T: Fn(u32, PacketNumber) -> bool>(
    words: &[u32],
    test: T,
) -> Option<PacketNumber>
    requires { T.IsAlwaysCallable test }
    ensures { (t : ℕ → Bool) → Tells (T.post test) words.now t → result ≡ first_packet t (packets_of words.now) }
{
    for p in 0..packets_of(words).0 {
        let packet = PacketNumber(p);
        if test(head_at(words, packet), packet) {
            return Some(packet);
        }
    }
    None
}
