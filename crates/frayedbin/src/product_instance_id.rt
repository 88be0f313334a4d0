// Product instance id, status 0x04: settings on words.
ghost use Rattle.std.specs.Prelude.{◌≡◌};
ghost use Rattle.kinds.specs.Fields.{Text, Setting};
ghost use Rattle.standard.specs.Words.{set_on};
ghost use Rattle.c_structs.specs.Crossed.{answered};

use c_structs::answers::Answered;
use text_settings::product_instance_id;

#[unsafe(no_mangle)]
pub extern "C" fn frayedbin_product_instance_id_set_id(words: &mut [u32], id: &[u8]) -> Answered
    ensures answer { result ≡ answered (set_on (Setting.text Text.product_instance_id id.now) words.old).answer }
    ensures buffer { words.new ≡ (set_on (Setting.text Text.product_instance_id id.now) words.old).words }
{
    Answered::from(product_instance_id::set_id(words, id))
}
