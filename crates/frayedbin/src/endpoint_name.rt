// Endpoint name, status 0x03: settings on words.
ghost use Rattle.std.specs.Prelude.{◌≡◌};
ghost use Rattle.kinds.specs.Fields.{Text, Setting};
ghost use Rattle.standard.specs.Words.{set_on};
ghost use Rattle.c_structs.specs.Crossed.{answered};

use c_structs::answers::Answered;
use text_settings::endpoint_name;

#[unsafe(no_mangle)]
pub extern "C" fn frayedbin_endpoint_name_set_name(words: &mut [u32], name: &[u8]) -> Answered
    ensures answer { result ≡ answered (set_on (Setting.text Text.endpoint_name name.now) words.old).answer }
    ensures buffer { words.new ≡ (set_on (Setting.text Text.endpoint_name name.now) words.old).words }
{
    Answered::from(endpoint_name::set_name(words, name))
}
