// Status 0x11: one function block of an endpoint, with its three named choices.
ghost use Rattle.std.specs.Prelude.{◌≡◌};
ghost use Rattle.kinds.specs.Fields.{Flag, Number, Setting};
ghost use Rattle.records.specs.Settings.{set_record, set_edited};

use crate::answers::Edited;
use crate::message::Message;
use kinds::choices::{Direction, Midi1Port, UiHint};

#[derive(Clone, Copy)]
pub struct FunctionBlockInfo {
    pub active: bool,
    pub function_block_number: u8,
    pub ui_hint: UiHint,
    pub midi1_port: Midi1Port,
    pub direction: Direction,
    pub first_group: u8,
    pub number_of_groups_spanned: u8,
    pub midi_ci_version: u8,
    pub max_number_of_midi_ci_streams: u8,
}

// Settings on a record.
#[tactic(auto, unfolding(crate::proofs::Methods::setting), using(crate::proofs::Methods::block_laws))]
impl Message {
    pub fn set_active(mut self, on: bool) -> Edited
        ensures { result ≡ set_record (Setting.flag Flag.active on) self }
    {
        let Message::FunctionBlockInfo(block) = &mut self else {
            return Edited::no_such_field(self);
        };
        block.active = on;
        Edited::done(self)
    }

    pub fn set_function_block_number(mut self, number: u32) -> Edited
        ensures { result ≡ set_record (Setting.number Number.function_block_number number) self }
    {
        let Message::FunctionBlockInfo(block) = &mut self else {
            return Edited::no_such_field(self);
        };
        if number > 127 {
            return Edited::too_large(self);
        }
        block.function_block_number = number as u8;
        Edited::done(self)
    }

    pub fn set_ui_hint(mut self, hint: UiHint) -> Edited
        ensures { result ≡ set_record (Setting.ui_hint hint) self }
    {
        let Message::FunctionBlockInfo(block) = &mut self else {
            return Edited::no_such_field(self);
        };
        block.ui_hint = hint;
        Edited::done(self)
    }

    pub fn set_midi1_port(mut self, port: Midi1Port) -> Edited
        ensures { result ≡ set_record (Setting.midi1_port port) self }
    {
        let Message::FunctionBlockInfo(block) = &mut self else {
            return Edited::no_such_field(self);
        };
        block.midi1_port = port;
        Edited::done(self)
    }

    pub fn set_direction(mut self, direction: Direction) -> Edited
        ensures { result ≡ set_record (Setting.direction direction) self }
    {
        let Message::FunctionBlockInfo(block) = &mut self else {
            return Edited::no_such_field(self);
        };
        block.direction = direction;
        Edited::done(self)
    }

    pub fn set_first_group(mut self, number: u32) -> Edited
        ensures { result ≡ set_record (Setting.number Number.first_group number) self }
    {
        let Message::FunctionBlockInfo(block) = &mut self else {
            return Edited::no_such_field(self);
        };
        if number > 15 {
            return Edited::too_large(self);
        }
        block.first_group = number as u8;
        Edited::done(self)
    }

    pub fn set_number_of_groups_spanned(mut self, number: u32) -> Edited
        ensures { result ≡ set_record (Setting.number Number.number_of_groups_spanned number) self }
    {
        let Message::FunctionBlockInfo(block) = &mut self else {
            return Edited::no_such_field(self);
        };
        if number > 255 {
            return Edited::too_large(self);
        }
        block.number_of_groups_spanned = number as u8;
        Edited::done(self)
    }

    pub fn set_midi_ci_version(mut self, number: u32) -> Edited
        ensures { result ≡ set_record (Setting.number Number.midi_ci_version number) self }
    {
        let Message::FunctionBlockInfo(block) = &mut self else {
            return Edited::no_such_field(self);
        };
        if number > 255 {
            return Edited::too_large(self);
        }
        block.midi_ci_version = number as u8;
        Edited::done(self)
    }

    pub fn set_max_number_of_midi_ci_streams(mut self, number: u32) -> Edited
        ensures { result ≡ set_record (Setting.number Number.max_number_of_midi_ci_streams number) self }
    {
        let Message::FunctionBlockInfo(block) = &mut self else {
            return Edited::no_such_field(self);
        };
        if number > 255 {
            return Edited::too_large(self);
        }
        block.max_number_of_midi_ci_streams = number as u8;
        Edited::done(self)
    }
}

// The same settings on the result of a setting, for chains.
impl Edited {
    pub fn set_active(self, on: bool) -> Edited
        ensures { result ≡ set_edited (Setting.flag Flag.active on) self }
    {
        self.then(self.message.set_active(on))
    }

    pub fn set_function_block_number(self, number: u32) -> Edited
        ensures { result ≡ set_edited (Setting.number Number.function_block_number number) self }
    {
        self.then(self.message.set_function_block_number(number))
    }

    pub fn set_ui_hint(self, hint: UiHint) -> Edited
        ensures { result ≡ set_edited (Setting.ui_hint hint) self }
    {
        self.then(self.message.set_ui_hint(hint))
    }

    pub fn set_midi1_port(self, port: Midi1Port) -> Edited
        ensures { result ≡ set_edited (Setting.midi1_port port) self }
    {
        self.then(self.message.set_midi1_port(port))
    }

    pub fn set_direction(self, direction: Direction) -> Edited
        ensures { result ≡ set_edited (Setting.direction direction) self }
    {
        self.then(self.message.set_direction(direction))
    }

    pub fn set_first_group(self, number: u32) -> Edited
        ensures { result ≡ set_edited (Setting.number Number.first_group number) self }
    {
        self.then(self.message.set_first_group(number))
    }

    pub fn set_number_of_groups_spanned(self, number: u32) -> Edited
        ensures { result ≡ set_edited (Setting.number Number.number_of_groups_spanned number) self }
    {
        self.then(self.message.set_number_of_groups_spanned(number))
    }

    pub fn set_midi_ci_version(self, number: u32) -> Edited
        ensures { result ≡ set_edited (Setting.number Number.midi_ci_version number) self }
    {
        self.then(self.message.set_midi_ci_version(number))
    }

    pub fn set_max_number_of_midi_ci_streams(self, number: u32) -> Edited
        ensures { result ≡ set_edited (Setting.number Number.max_number_of_midi_ci_streams number) self }
    {
        self.then(self.message.set_max_number_of_midi_ci_streams(number))
    }
}
