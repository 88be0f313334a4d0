// The text of an endpoint name, status 0x03, set on words: 14 bytes a packet.
ghost use Rattle.std.specs.Prelude.{◌≡◌};
ghost use Rattle.kinds.specs.Fields.{Text, Setting};
ghost use Rattle.standard.specs.Words.{set_on};

use crate::texts::set_text;
use kinds::kind::Kind;
use kinds::refusal::Refusal;
use table::rows::head_of;

#[tactic(auto, unfolding(kinds::specs::Layout::layout), using(crate::proofs::Rows::name_put))]
pub fn set_name(words: &mut [u32], name: &[u8]) -> Result<(), Refusal>
    ensures answer { result ≡ (set_on (Setting.text Text.endpoint_name name.now) words.old).answer }
    ensures buffer { words.new ≡ (set_on (Setting.text Text.endpoint_name name.now) words.old).words }
{
    set_text(words, Kind::EndpointName, head_of(Kind::EndpointName), name)
}
