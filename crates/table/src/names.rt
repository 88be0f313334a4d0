// The flags, numbers and pairs of the fixed kinds by name, and where each stands.
ghost use Rattle.std.specs.Prelude.{◌≡◌};
ghost use Rattle.table.specs.Named.{FieldIs, HomeIs, field_at, flag_at, number_at, pair_at};

use crate::places::{Place, place_of};
use kinds::kind::Kind;

#[derive(Clone, Copy)]
pub enum FlagName {
    RequestEndpointInfo,
    RequestDeviceIdentity,
    RequestEndpointName,
    RequestProductInstanceId,
    RequestStreamConfiguration,
    StaticFunctionBlocks,
    SupportsMidi2Protocol,
    SupportsMidi1Protocol,
    SupportsReceivingJrTimestamps,
    SupportsSendingJrTimestamps,
    Active,
}

#[derive(Clone, Copy)]
pub enum NumberName {
    DiscoveryVersionMajor,
    DiscoveryVersionMinor,
    InfoVersionMajor,
    InfoVersionMinor,
    NumberOfFunctionBlocks,
    FunctionBlockNumber,
    FirstGroup,
    NumberOfGroupsSpanned,
    MidiCiVersion,
    MaxNumberOfMidiCiStreams,
}

// A number of fourteen bits in two slots, the low seven bits first.
#[derive(Clone, Copy)]
pub enum PairName {
    DeviceFamily,
    DeviceFamilyModelNumber,
}

// A field: the kind that has it, and its first slot there.
#[derive(Clone, Copy)]
pub struct FieldAt {
    pub kind: Kind,
    pub slot: u8,
}

// The fields that are no flag, number or pair.
pub const UI_HINT: FieldAt = FieldAt {
    kind: Kind::FunctionBlockInfo,
    slot: 2,
};

pub const MIDI1_PORT: FieldAt = FieldAt {
    kind: Kind::FunctionBlockInfo,
    slot: 3,
};

pub const DIRECTION: FieldAt = FieldAt {
    kind: Kind::FunctionBlockInfo,
    slot: 4,
};

pub const DEVICE_MANUFACTURER: FieldAt = FieldAt {
    kind: Kind::DeviceIdentity,
    slot: 0,
};

pub const SOFTWARE_VERSION: FieldAt = FieldAt {
    kind: Kind::DeviceIdentity,
    slot: 7,
};

impl FieldAt {
    fn new(kind: Kind, slot: u8) -> FieldAt
        ensures { result ≡ field_at kind slot }
    {
        FieldAt { kind, slot }
    }

    // Where the field's first number stands.
    pub fn home(self) -> Home
        ensures { HomeIs self.kind self.slot result }
    {
        Home {
            kind: self.kind,
            place: place_of(self.kind, self.slot as usize),
        }
    }
}

pub fn flag_at(flag: FlagName) -> FieldAt
    ensures { FieldIs (flag_at flag) result }
{
    match flag {
        FlagName::RequestEndpointInfo => FieldAt::new(Kind::EndpointDiscovery, 2),
        FlagName::RequestDeviceIdentity => FieldAt::new(Kind::EndpointDiscovery, 3),
        FlagName::RequestEndpointName => FieldAt::new(Kind::EndpointDiscovery, 4),
        FlagName::RequestProductInstanceId => FieldAt::new(Kind::EndpointDiscovery, 5),
        FlagName::RequestStreamConfiguration => FieldAt::new(Kind::EndpointDiscovery, 6),
        FlagName::StaticFunctionBlocks => FieldAt::new(Kind::EndpointInfo, 2),
        FlagName::SupportsMidi2Protocol => FieldAt::new(Kind::EndpointInfo, 3),
        FlagName::SupportsMidi1Protocol => FieldAt::new(Kind::EndpointInfo, 4),
        FlagName::SupportsReceivingJrTimestamps => FieldAt::new(Kind::EndpointInfo, 5),
        FlagName::SupportsSendingJrTimestamps => FieldAt::new(Kind::EndpointInfo, 6),
        FlagName::Active => FieldAt::new(Kind::FunctionBlockInfo, 0),
    }
}

pub fn number_at(number: NumberName) -> FieldAt
    ensures { FieldIs (number_at number) result }
{
    match number {
        NumberName::DiscoveryVersionMajor => FieldAt::new(Kind::EndpointDiscovery, 0),
        NumberName::DiscoveryVersionMinor => FieldAt::new(Kind::EndpointDiscovery, 1),
        NumberName::InfoVersionMajor => FieldAt::new(Kind::EndpointInfo, 0),
        NumberName::InfoVersionMinor => FieldAt::new(Kind::EndpointInfo, 1),
        NumberName::NumberOfFunctionBlocks => FieldAt::new(Kind::EndpointInfo, 7),
        NumberName::FunctionBlockNumber => FieldAt::new(Kind::FunctionBlockInfo, 1),
        NumberName::FirstGroup => FieldAt::new(Kind::FunctionBlockInfo, 5),
        NumberName::NumberOfGroupsSpanned => FieldAt::new(Kind::FunctionBlockInfo, 6),
        NumberName::MidiCiVersion => FieldAt::new(Kind::FunctionBlockInfo, 7),
        NumberName::MaxNumberOfMidiCiStreams => FieldAt::new(Kind::FunctionBlockInfo, 8),
    }
}

pub fn pair_at(pair: PairName) -> FieldAt
    ensures { FieldIs (pair_at pair) result }
{
    match pair {
        PairName::DeviceFamily => FieldAt::new(Kind::DeviceIdentity, 3),
        PairName::DeviceFamilyModelNumber => FieldAt::new(Kind::DeviceIdentity, 5),
    }
}

// The kind that has a number, and where the number stands in its messages.
#[derive(Clone, Copy)]
pub struct Home {
    pub kind: Kind,
    pub place: Place,
}

pub fn flag_home(flag: FlagName) -> Home
    ensures { HomeIs (flag_at flag).kind (flag_at flag).slot result }
{
    flag_at(flag).home()
}

pub fn number_home(number: NumberName) -> Home
    ensures { HomeIs (number_at number).kind (number_at number).slot result }
{
    number_at(number).home()
}
