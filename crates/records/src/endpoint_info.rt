// Status 0x01: what an endpoint can do. The settings of its version stand in ump_version.rt.
ghost use Rattle.std.specs.Prelude.{◌≡◌};
ghost use Rattle.kinds.specs.Fields.{Flag, Number, Setting};
ghost use Rattle.records.specs.Settings.{set_record, set_edited};

use crate::answers::Edited;
use crate::message::Message;

#[derive(Clone, Copy)]
pub struct EndpointInfo {
    pub ump_version_major: u8,
    pub ump_version_minor: u8,
    pub static_function_blocks: bool,
    pub supports_midi2_protocol: bool,
    pub supports_midi1_protocol: bool,
    pub supports_receiving_jr_timestamps: bool,
    pub supports_sending_jr_timestamps: bool,
    pub number_of_function_blocks: u8,
}

// Settings on a record.
#[tactic(auto, unfolding(crate::proofs::Methods::setting), using(crate::proofs::Methods::other_info))]
impl Message {
    pub fn set_static_function_blocks(mut self, on: bool) -> Edited
        ensures { result ≡ set_record (Setting.flag Flag.static_function_blocks on) self }
    {
        let Message::EndpointInfo(info) = &mut self else {
            return Edited::no_such_field(self);
        };
        info.static_function_blocks = on;
        Edited::done(self)
    }

    pub fn set_supports_midi2_protocol(mut self, on: bool) -> Edited
        ensures { result ≡ set_record (Setting.flag Flag.supports_midi2_protocol on) self }
    {
        let Message::EndpointInfo(info) = &mut self else {
            return Edited::no_such_field(self);
        };
        info.supports_midi2_protocol = on;
        Edited::done(self)
    }

    pub fn set_supports_midi1_protocol(mut self, on: bool) -> Edited
        ensures { result ≡ set_record (Setting.flag Flag.supports_midi1_protocol on) self }
    {
        let Message::EndpointInfo(info) = &mut self else {
            return Edited::no_such_field(self);
        };
        info.supports_midi1_protocol = on;
        Edited::done(self)
    }

    pub fn set_supports_receiving_jr_timestamps(mut self, on: bool) -> Edited
        ensures { result ≡ set_record (Setting.flag Flag.supports_receiving_jr_timestamps on) self }
    {
        let Message::EndpointInfo(info) = &mut self else {
            return Edited::no_such_field(self);
        };
        info.supports_receiving_jr_timestamps = on;
        Edited::done(self)
    }

    pub fn set_supports_sending_jr_timestamps(mut self, on: bool) -> Edited
        ensures { result ≡ set_record (Setting.flag Flag.supports_sending_jr_timestamps on) self }
    {
        let Message::EndpointInfo(info) = &mut self else {
            return Edited::no_such_field(self);
        };
        info.supports_sending_jr_timestamps = on;
        Edited::done(self)
    }

    pub fn set_number_of_function_blocks(mut self, number: u32) -> Edited
        ensures { result ≡ set_record (Setting.number Number.number_of_function_blocks number) self }
    {
        let Message::EndpointInfo(info) = &mut self else {
            return Edited::no_such_field(self);
        };
        if number > 127 {
            return Edited::too_large(self);
        }
        info.number_of_function_blocks = number as u8;
        Edited::done(self)
    }
}

// The same settings on the result of a setting, for chains.
impl Edited {
    pub fn set_static_function_blocks(self, on: bool) -> Edited
        ensures { result ≡ set_edited (Setting.flag Flag.static_function_blocks on) self }
    {
        self.then(self.message.set_static_function_blocks(on))
    }

    pub fn set_supports_midi2_protocol(self, on: bool) -> Edited
        ensures { result ≡ set_edited (Setting.flag Flag.supports_midi2_protocol on) self }
    {
        self.then(self.message.set_supports_midi2_protocol(on))
    }

    pub fn set_supports_midi1_protocol(self, on: bool) -> Edited
        ensures { result ≡ set_edited (Setting.flag Flag.supports_midi1_protocol on) self }
    {
        self.then(self.message.set_supports_midi1_protocol(on))
    }

    pub fn set_supports_receiving_jr_timestamps(self, on: bool) -> Edited
        ensures { result ≡ set_edited (Setting.flag Flag.supports_receiving_jr_timestamps on) self }
    {
        self.then(self.message.set_supports_receiving_jr_timestamps(on))
    }

    pub fn set_supports_sending_jr_timestamps(self, on: bool) -> Edited
        ensures { result ≡ set_edited (Setting.flag Flag.supports_sending_jr_timestamps on) self }
    {
        self.then(self.message.set_supports_sending_jr_timestamps(on))
    }

    pub fn set_number_of_function_blocks(self, number: u32) -> Edited
        ensures { result ≡ set_edited (Setting.number Number.number_of_function_blocks number) self }
    {
        self.then(self.message.set_number_of_function_blocks(number))
    }
}
