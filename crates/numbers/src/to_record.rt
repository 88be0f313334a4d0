// A record from its numbers, a function for each fixed kind.
#![tactic(auto, unfolding(crate::proofs::Accepted::computed))]

ghost use Rattle.std.specs.Prelude.{◌≡◌};
ghost use Rattle.kinds.specs.declared.kind.Kind.TheVariants as K;
ghost use Rattle.kinds.specs.Layout.{kind_of};
ghost use Rattle.records.specs.Records.{record_of};
ghost use Rattle.numbers.specs.FromNumbers.{Fitting, values_from, choices_named, is_record, from_kind, other_kind, from_own, from_fixed};

use crate::Numbers;
use crate::in_slots::numbers_in_range;
use counts::PacketNumber;
use kinds::choices::{direction_of_valid_code, hint_of_valid_code, port_of_valid_code};
use kinds::kind::Kind;
use kinds::refusal::Refusal;
use records::device_identity::{DeviceIdentity, Manufacturer, SoftwareVersion};
use records::endpoint_discovery::EndpointDiscovery;
use records::endpoint_info::EndpointInfo;
use records::function_block_info::FunctionBlockInfo;
use records::message::Message;
use table::rows::{kind_of, row_of};

// Each of these takes that its own kind's numbers fit: a type that says it would be one struct a kind.
fn endpoint_discovery(c: Numbers) -> Message
    requires { Fitting K.EndpointDiscovery c }
    ensures { result ≡ record_of K.EndpointDiscovery c.packets (values_from K.EndpointDiscovery c) }
{
    Message::EndpointDiscovery(EndpointDiscovery {
        ump_version_major: c.first as u8,
        ump_version_minor: c.second as u8,
        request_endpoint_info: c.third == 1,
        request_device_identity: c.fourth == 1,
        request_endpoint_name: c.fifth == 1,
        request_product_instance_id: c.sixth == 1,
        request_stream_configuration: c.seventh == 1,
    })
}

fn endpoint_info(c: Numbers) -> Message
    requires { Fitting K.EndpointInfo c }
    ensures { result ≡ record_of K.EndpointInfo c.packets (values_from K.EndpointInfo c) }
{
    Message::EndpointInfo(EndpointInfo {
        ump_version_major: c.first as u8,
        ump_version_minor: c.second as u8,
        static_function_blocks: c.third == 1,
        supports_midi2_protocol: c.fourth == 1,
        supports_midi1_protocol: c.fifth == 1,
        supports_receiving_jr_timestamps: c.sixth == 1,
        supports_sending_jr_timestamps: c.seventh == 1,
        number_of_function_blocks: c.eighth as u8,
    })
}

fn device_identity(c: Numbers) -> Message
    requires { Fitting K.DeviceIdentity c }
    ensures { result ≡ record_of K.DeviceIdentity c.packets (values_from K.DeviceIdentity c) }
{
    Message::DeviceIdentity(DeviceIdentity {
        device_manufacturer: Manufacturer(c.first as u8, c.second as u8, c.third as u8),
        device_family: c.fourth as u16,
        device_family_model_number: c.fifth as u16,
        software_version: SoftwareVersion(
            c.sixth as u8,
            c.seventh as u8,
            c.eighth as u8,
            c.ninth as u8,
        ),
    })
}

fn function_block_info(c: Numbers) -> Message
    requires { Fitting K.FunctionBlockInfo c }
    ensures { result ≡ record_of K.FunctionBlockInfo c.packets (values_from K.FunctionBlockInfo c) }
{
    Message::FunctionBlockInfo(FunctionBlockInfo {
        active: c.first == 1,
        function_block_number: c.second as u8,
        ui_hint: hint_of_valid_code(c.third as u8),
        midi1_port: port_of_valid_code(c.fourth as u8),
        direction: direction_of_valid_code(c.fifth as u8),
        first_group: c.sixth as u8,
        number_of_groups_spanned: c.seventh as u8,
        midi_ci_version: c.eighth as u8,
        max_number_of_midi_ci_streams: c.ninth as u8,
    })
}

fn function_block_name(c: Numbers) -> Message
    requires { Fitting K.FunctionBlockName c }
    ensures { result ≡ record_of K.FunctionBlockName c.packets (values_from K.FunctionBlockName c) }
{
    Message::FunctionBlockName {
        function_block: c.first as u8,
        packets: PacketNumber(c.packets),
    }
}

// The numbers of a kind, each at most its field's largest.
fn fitting_record(kind: Kind, c: Numbers) -> Message
    requires { Fitting kind c }
    ensures { result ≡ record_of kind c.packets (values_from kind c) }
{
    match kind {
        Kind::EndpointDiscovery => endpoint_discovery(c),
        Kind::EndpointInfo => endpoint_info(c),
        Kind::DeviceIdentity => device_identity(c),
        Kind::EndpointName => Message::EndpointName(PacketNumber(c.packets)),
        Kind::ProductInstanceId => Message::ProductInstanceId(PacketNumber(c.packets)),
        Kind::FunctionBlockInfo => function_block_info(c),
        Kind::FunctionBlockName => function_block_name(c),
    }
}

// Whether the numbers name no port 3 and no direction 0, which only a block info can.
fn choices_named(kind: Kind, c: Numbers) -> bool
    ensures { result ≡ choices_named kind c }
{
    match kind {
        Kind::FunctionBlockInfo => c.fourth != 3 && c.fifth != 0,
        _ => true,
    }
}

// Whether numbers of a kind's status are a record: each at most its field's largest, and choices that have a name.
#[tactic(auto, unfolding(laws::specs::Pick::both))]
pub(crate) fn is_record(kind: Kind, c: Numbers) -> bool
    ensures { result ≡ is_record kind c }
{
    numbers_in_range(kind, c) && choices_named(kind, c)
}

// Numbers of a kind's status.
#[tactic(auto, unfolding(crate::specs::FromNumbers::from_kind, laws::specs::Pick::both))]
fn own_record(kind: Kind, c: Numbers) -> Result<Message, Refusal>
    ensures { result ≡ from_kind kind c }
{
    if is_record(kind, c) {
        return Ok(fitting_record(kind, c));
    }
    Err(Refusal::NumberTooLarge)
}

// Why numbers of another status than the one wanted are refused.
pub(crate) fn other_kind(status: u32) -> Refusal
    ensures { result ≡ other_kind (kind_of status) }
{
    match kind_of(status) {
        Some(_) => Refusal::NoSuchField,
        None => Refusal::UnknownStatus,
    }
}

// A record of one kind: refusals 5, 13, 12.
pub fn record_of(kind: Kind, c: Numbers) -> Result<Message, Refusal>
    ensures { result ≡ from_own kind c }
{
    let row = row_of(kind);
    if c.status != row.status {
        return Err(other_kind(c.status));
    }
    own_record(kind, c)
}

// A record of any fixed kind: refusals 5, 13 for a kind with text, 12.
pub fn fixed_record(c: Numbers) -> Result<Message, Refusal>
    ensures { result ≡ from_fixed c }
{
    let kind = kind_of(c.status).ok_or(Refusal::UnknownStatus)?;
    let row = row_of(kind);
    if 1 < row.most_packets {
        return Err(Refusal::NoSuchField);
    }
    own_record(kind, c)
}
