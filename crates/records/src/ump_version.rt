// The version of UMP: two numbers that a discovery and an endpoint info both have.
ghost use Rattle.std.specs.Prelude.{◌≡◌};
ghost use Rattle.kinds.specs.Fields.{Setting};
ghost use Rattle.records.specs.Records.{kind_in};
ghost use Rattle.records.specs.Settings.{major_of, minor_of, set_record, set_edited};

use crate::answers::Edited;
use crate::message::Message;

// Settings on a record.
#[tactic(auto, unfolding(crate::proofs::Methods::setting), using(crate::proofs::Methods::no_version, kinds::proofs::Codes::bit_flag))]
impl Message {
    pub fn set_ump_version_major(mut self, number: u32) -> Edited
        ensures { result ≡ set_record (Setting.number (major_of (kind_in self)) number) self }
    {
        match &mut self {
            Message::EndpointDiscovery(_) | Message::EndpointInfo(_) if number > 255 => {
                return Edited::too_large(self);
            }
            Message::EndpointDiscovery(discovery) => discovery.ump_version_major = number as u8,
            Message::EndpointInfo(info) => info.ump_version_major = number as u8,
            _ => return Edited::no_such_field(self),
        }
        Edited::done(self)
    }

    pub fn set_ump_version_minor(mut self, number: u32) -> Edited
        ensures { result ≡ set_record (Setting.number (minor_of (kind_in self)) number) self }
    {
        match &mut self {
            Message::EndpointDiscovery(_) | Message::EndpointInfo(_) if number > 255 => {
                return Edited::too_large(self);
            }
            Message::EndpointDiscovery(discovery) => discovery.ump_version_minor = number as u8,
            Message::EndpointInfo(info) => info.ump_version_minor = number as u8,
            _ => return Edited::no_such_field(self),
        }
        Edited::done(self)
    }
}

// The same settings on the result of a setting, for chains.
impl Edited {
    pub fn set_ump_version_major(self, number: u32) -> Edited
        ensures { result ≡ set_edited (Setting.number (major_of (kind_in self.message)) number) self }
    {
        self.then(self.message.set_ump_version_major(number))
    }

    pub fn set_ump_version_minor(self, number: u32) -> Edited
        ensures { result ≡ set_edited (Setting.number (minor_of (kind_in self.message)) number) self }
    {
        self.then(self.message.set_ump_version_minor(number))
    }
}
