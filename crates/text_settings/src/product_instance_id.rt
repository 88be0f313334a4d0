// The text of a product instance id, status 0x04, set on words: 14 bytes a packet.
ghost use Rattle.std.specs.Prelude.{◌≡◌};
ghost use Rattle.kinds.specs.Fields.{Text, Setting};
ghost use Rattle.standard.specs.Words.{set_on};

use crate::texts::set_text;
use kinds::kind::Kind;
use kinds::refusal::Refusal;
use table::rows::head_of;

#[tactic(auto, unfolding(kinds::specs::Layout::layout), using(crate::proofs::Rows::id_put))]
pub fn set_id(words: &mut [u32], id: &[u8]) -> Result<(), Refusal>
    ensures answer { result ≡ (set_on (Setting.text Text.product_instance_id id.now) words.old).answer }
    ensures buffer { words.new ≡ (set_on (Setting.text Text.product_instance_id id.now) words.old).words }
{
    set_text(
        words,
        Kind::ProductInstanceId,
        head_of(Kind::ProductInstanceId),
        id,
    )
}
