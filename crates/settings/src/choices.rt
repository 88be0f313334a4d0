// Settings of the choices of a function block info on words, each a named one: document 01 asks for plain functions.
ghost use Rattle.std.specs.Prelude.{◌≡◌};
ghost use Rattle.kinds.specs.Fields.{Setting};
ghost use Rattle.standard.specs.Words.{set_on};

use crate::fixed::set_home;
use kinds::choices::{Direction, Midi1Port, UiHint};
use kinds::refusal::Refusal;
use table::names::{DIRECTION, MIDI1_PORT, UI_HINT};

#[tactic(auto, using(crate::proofs::Places::hint_put))]
pub fn set_ui_hint(words: &mut [u32], hint: UiHint) -> Result<(), Refusal>
    ensures answer { result ≡ (set_on (Setting.ui_hint hint) words.old).answer }
    ensures buffer { words.new ≡ (set_on (Setting.ui_hint hint) words.old).words }
{
    set_home(words, UI_HINT.home(), u32::from(hint))
}

#[tactic(auto, using(crate::proofs::Places::port_put))]
pub fn set_midi1_port(words: &mut [u32], port: Midi1Port) -> Result<(), Refusal>
    ensures answer { result ≡ (set_on (Setting.midi1_port port) words.old).answer }
    ensures buffer { words.new ≡ (set_on (Setting.midi1_port port) words.old).words }
{
    set_home(words, MIDI1_PORT.home(), u32::from(port))
}

#[tactic(auto, using(crate::proofs::Places::direction_put))]
pub fn set_direction(words: &mut [u32], direction: Direction) -> Result<(), Refusal>
    ensures answer { result ≡ (set_on (Setting.direction direction) words.old).answer }
    ensures buffer { words.new ≡ (set_on (Setting.direction direction) words.old).words }
{
    set_home(words, DIRECTION.home(), u32::from(direction))
}
