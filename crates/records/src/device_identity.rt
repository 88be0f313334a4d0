// Status 0x02: who made a device, and which it is.
ghost use Rattle.std.specs.Prelude.{◌≡◌, not};
ghost use Rattle.kinds.specs.Fields.{Pair, Setting};
ghost use Rattle.records.specs.Settings.{septets, set_record, set_edited};

use crate::answers::Edited;
use crate::message::Message;

// One field of three numbers.
#[derive(Clone, Copy)]
pub struct Manufacturer(pub u8, pub u8, pub u8);

// One field of four numbers.
#[derive(Clone, Copy)]
pub struct SoftwareVersion(pub u8, pub u8, pub u8, pub u8);

#[derive(Clone, Copy)]
pub struct DeviceIdentity {
    pub device_manufacturer: Manufacturer,
    pub device_family: u16,
    pub device_family_model_number: u16,
    pub software_version: SoftwareVersion,
}

// Whether a number is above 127.
fn any_above_127(numbers: &[u32]) -> bool
    ensures { result ≡ not (septets numbers.now) }
{
    numbers.iter().any(|&number| number > 127)
}

// Settings on a record.
#[tactic(auto, unfolding(crate::proofs::Methods::setting), using(crate::proofs::Methods::other_identity))]
impl Message {
    pub fn set_device_manufacturer(mut self, first: u32, second: u32, third: u32) -> Edited
        ensures { result ≡ set_record (Setting.device_manufacturer first second third) self }
    {
        let Message::DeviceIdentity(identity) = &mut self else {
            return Edited::no_such_field(self);
        };
        if any_above_127(&[first, second, third]) {
            return Edited::too_large(self);
        }
        let numbers = Manufacturer(first as u8, second as u8, third as u8);
        identity.device_manufacturer = numbers;
        Edited::done(self)
    }

    pub fn set_device_family(mut self, number: u32) -> Edited
        ensures { result ≡ set_record (Setting.pair Pair.device_family number) self }
    {
        let Message::DeviceIdentity(identity) = &mut self else {
            return Edited::no_such_field(self);
        };
        if number > 16383 {
            return Edited::too_large(self);
        }
        identity.device_family = number as u16;
        Edited::done(self)
    }

    pub fn set_device_family_model_number(mut self, number: u32) -> Edited
        ensures { result ≡ set_record (Setting.pair Pair.device_family_model_number number) self }
    {
        let Message::DeviceIdentity(identity) = &mut self else {
            return Edited::no_such_field(self);
        };
        if number > 16383 {
            return Edited::too_large(self);
        }
        identity.device_family_model_number = number as u16;
        Edited::done(self)
    }

    pub fn set_software_version(
        mut self,
        first: u32,
        second: u32,
        third: u32,
        fourth: u32,
    ) -> Edited
        ensures { result ≡ set_record (Setting.software_version first second third fourth) self }
    {
        let Message::DeviceIdentity(identity) = &mut self else {
            return Edited::no_such_field(self);
        };
        if any_above_127(&[first, second, third, fourth]) {
            return Edited::too_large(self);
        }
        let numbers = SoftwareVersion(first as u8, second as u8, third as u8, fourth as u8);
        identity.software_version = numbers;
        Edited::done(self)
    }
}

// The same settings on the result of a setting, for chains.
impl Edited {
    pub fn set_device_manufacturer(self, first: u32, second: u32, third: u32) -> Edited
        ensures { result ≡ set_edited (Setting.device_manufacturer first second third) self }
    {
        self.then(self.message.set_device_manufacturer(first, second, third))
    }

    pub fn set_device_family(self, number: u32) -> Edited
        ensures { result ≡ set_edited (Setting.pair Pair.device_family number) self }
    {
        self.then(self.message.set_device_family(number))
    }

    pub fn set_device_family_model_number(self, number: u32) -> Edited
        ensures { result ≡ set_edited (Setting.pair Pair.device_family_model_number number) self }
    {
        self.then(self.message.set_device_family_model_number(number))
    }

    pub fn set_software_version(self, first: u32, second: u32, third: u32, fourth: u32) -> Edited
        ensures { result ≡ set_edited (Setting.software_version first second third fourth) self }
    {
        self.then(
            self.message
                .set_software_version(first, second, third, fourth),
        )
    }
}
