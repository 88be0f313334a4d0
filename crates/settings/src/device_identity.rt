// Settings of the fields of a device identity that are several numbers, on words.
ghost use Rattle.std.specs.Prelude.{◌≡◌};
ghost use Rattle.kinds.specs.Fields.{Setting};
ghost use Rattle.standard.specs.Words.{set_on};

use crate::fixed::set_slots;
use kinds::refusal::Refusal;
use table::names::{DEVICE_MANUFACTURER, SOFTWARE_VERSION};

#[tactic(auto, using(crate::proofs::Places::manufacturer_put))]
pub fn set_device_manufacturer(words: &mut [u32], a: u32, b: u32, c: u32) -> Result<(), Refusal>
    ensures answer { result ≡ (set_on (Setting.device_manufacturer a b c) words.old).answer }
    ensures buffer { words.new ≡ (set_on (Setting.device_manufacturer a b c) words.old).words }
{
    set_slots(words, DEVICE_MANUFACTURER, &[a, b, c])
}

#[tactic(auto, using(crate::proofs::Places::version_put))]
pub fn set_software_version(
    words: &mut [u32],
    a: u32,
    b: u32,
    c: u32,
    d: u32,
) -> Result<(), Refusal>
    ensures answer { result ≡ (set_on (Setting.software_version a b c d) words.old).answer }
    ensures buffer { words.new ≡ (set_on (Setting.software_version a b c d) words.old).words }
{
    set_slots(words, SOFTWARE_VERSION, &[a, b, c, d])
}
