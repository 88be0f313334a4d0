// One setting on words: a field of a kind, set to its values.
use crate::values::Values;
use kinds::choices::{Direction, Midi1Port, UiHint};
use kinds::kind::Kind;
use kinds::refusal::Refusal;
use settings::named::{set_flag, set_number, set_pair};
use settings::{choices, device_identity};
use table::names::{FlagName, NumberName, PairName};
use text_settings::{endpoint_name, function_block_name, product_instance_id};

fn on(n: u32) -> bool {
    n % 2 == 1
}

// The choices by name, so that the code of the first of each is held to what a fresh message has.
fn hint(n: u32) -> UiHint {
    match n % 4 {
        0 => UiHint::Undeclared,
        1 => UiHint::Receiver,
        2 => UiHint::Sender,
        _ => UiHint::SenderReceiver,
    }
}

fn port(n: u32) -> Midi1Port {
    match n % 3 {
        0 => Midi1Port::None,
        1 => Midi1Port::DontRestrictBandwidth,
        _ => Midi1Port::RestrictBandwidth,
    }
}

fn direction(n: u32) -> Direction {
    match n % 3 {
        0 => Direction::Input,
        1 => Direction::Output,
        _ => Direction::Bidirectional,
    }
}

fn discovery(words: &mut [u32], i: usize, n: u32) -> Result<(), Refusal> {
    match i {
        0 => set_number(words, NumberName::DiscoveryVersionMajor, n),
        1 => set_number(words, NumberName::DiscoveryVersionMinor, n),
        2 => set_flag(words, FlagName::RequestEndpointInfo, on(n)),
        3 => set_flag(words, FlagName::RequestDeviceIdentity, on(n)),
        4 => set_flag(words, FlagName::RequestEndpointName, on(n)),
        5 => set_flag(words, FlagName::RequestProductInstanceId, on(n)),
        _ => set_flag(words, FlagName::RequestStreamConfiguration, on(n)),
    }
}

fn info(words: &mut [u32], i: usize, n: u32) -> Result<(), Refusal> {
    match i {
        0 => set_number(words, NumberName::InfoVersionMajor, n),
        1 => set_number(words, NumberName::InfoVersionMinor, n),
        2 => set_flag(words, FlagName::StaticFunctionBlocks, on(n)),
        3 => set_flag(words, FlagName::SupportsMidi2Protocol, on(n)),
        4 => set_flag(words, FlagName::SupportsMidi1Protocol, on(n)),
        5 => set_flag(words, FlagName::SupportsReceivingJrTimestamps, on(n)),
        6 => set_flag(words, FlagName::SupportsSendingJrTimestamps, on(n)),
        _ => set_number(words, NumberName::NumberOfFunctionBlocks, n),
    }
}

fn identity(words: &mut [u32], i: usize, n: [u32; 9]) -> Result<(), Refusal> {
    match i {
        0 => device_identity::set_device_manufacturer(words, n[0], n[1], n[2]),
        1 => set_pair(words, PairName::DeviceFamily, n[3]),
        2 => set_pair(words, PairName::DeviceFamilyModelNumber, n[4]),
        _ => device_identity::set_software_version(words, n[5], n[6], n[7], n[8]),
    }
}

fn block_info(words: &mut [u32], i: usize, n: u32) -> Result<(), Refusal> {
    match i {
        0 => set_flag(words, FlagName::Active, on(n)),
        1 => set_number(words, NumberName::FunctionBlockNumber, n),
        2 => choices::set_ui_hint(words, hint(n)),
        3 => choices::set_midi1_port(words, port(n)),
        4 => choices::set_direction(words, direction(n)),
        5 => set_number(words, NumberName::FirstGroup, n),
        6 => set_number(words, NumberName::NumberOfGroupsSpanned, n),
        7 => set_number(words, NumberName::MidiCiVersion, n),
        _ => set_number(words, NumberName::MaxNumberOfMidiCiStreams, n),
    }
}

fn block_name(words: &mut [u32], i: usize, n: u32, text: &[u8]) -> Result<(), Refusal> {
    match i {
        0 => function_block_name::set_function_block(words, n),
        _ => function_block_name::set_name(words, text),
    }
}

// Field i of a kind, in the order of the table of fields. A random number picks it: an enum of all fields would be that order told again.
pub(crate) fn apply(words: &mut [u32], kind: Kind, i: usize, v: Values<'_>) -> Result<(), Refusal> {
    let Some(&n) = v.numbers.get(i) else {
        return Err(Refusal::NoSuchField);
    };
    match kind {
        Kind::EndpointDiscovery => discovery(words, i, n),
        Kind::EndpointInfo => info(words, i, n),
        Kind::DeviceIdentity => identity(words, i, v.numbers),
        Kind::EndpointName => endpoint_name::set_name(words, v.text),
        Kind::ProductInstanceId => product_instance_id::set_id(words, v.text),
        Kind::FunctionBlockInfo => block_info(words, i, n),
        Kind::FunctionBlockName => block_name(words, i, n, v.text),
    }
}
