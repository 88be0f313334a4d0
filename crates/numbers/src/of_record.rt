// The numbers of a record, a function for each fixed kind.
#![tactic(auto, unfolding(crate::proofs::AsNumbers::of_record), using(bit_ops::proofs::Parts::bit_byte))]

ghost use Rattle.std.specs.Prelude.{◌≡◌, get_or};
ghost use Rattle.kinds.specs.Layout.{layout};
ghost use Rattle.records.specs.declared.message.Message.TheVariants as M;
ghost use Rattle.numbers.specs.Numbers.{numbered, as_numbers, one_number, no_numbers};

use crate::{Numbers, Reserved};
use kinds::kind::Kind;
use records::device_identity::DeviceIdentity;
use records::endpoint_discovery::EndpointDiscovery;
use records::endpoint_info::EndpointInfo;
use records::function_block_info::FunctionBlockInfo;
use records::message::Message;
use table::rows::row_of;

// Number i of a list; 0 past its last.
fn nth(numbers: &[u32], i: usize) -> u32
    ensures { result ≡ get_or numbers.now i 0 }
{
    numbers.get(i).copied().unwrap_or(0)
}

// The numbers of a kind, which gives the status; 0 past the last.
fn of_kind(kind: Kind, packets: usize, numbers: &[u32]) -> Numbers
    ensures { result ≡ numbered (layout kind).status packets numbers.now }
{
    let row = row_of(kind);
    Numbers {
        status: row.status,
        packets,
        first: nth(numbers, 0),
        second: nth(numbers, 1),
        third: nth(numbers, 2),
        fourth: nth(numbers, 3),
        fifth: nth(numbers, 4),
        sixth: nth(numbers, 5),
        seventh: nth(numbers, 6),
        eighth: nth(numbers, 7),
        ninth: nth(numbers, 8),
        reserved: Reserved(0, 0, 0, 0, 0),
    }
}

pub fn of_endpoint_discovery(e: EndpointDiscovery) -> Numbers
    ensures { result ≡ as_numbers (M.EndpointDiscovery e) }
{
    let ns = [
        e.ump_version_major as u32,
        e.ump_version_minor as u32,
        e.request_endpoint_info as u32,
        e.request_device_identity as u32,
        e.request_endpoint_name as u32,
        e.request_product_instance_id as u32,
        e.request_stream_configuration as u32,
    ];
    of_kind(Kind::EndpointDiscovery, 1, &ns)
}

pub fn of_endpoint_info(e: EndpointInfo) -> Numbers
    ensures { result ≡ as_numbers (M.EndpointInfo e) }
{
    let ns = [
        e.ump_version_major as u32,
        e.ump_version_minor as u32,
        e.static_function_blocks as u32,
        e.supports_midi2_protocol as u32,
        e.supports_midi1_protocol as u32,
        e.supports_receiving_jr_timestamps as u32,
        e.supports_sending_jr_timestamps as u32,
        e.number_of_function_blocks as u32,
    ];
    of_kind(Kind::EndpointInfo, 1, &ns)
}

pub fn of_device_identity(e: DeviceIdentity) -> Numbers
    ensures { result ≡ as_numbers (M.DeviceIdentity e) }
{
    let ns = [
        e.device_manufacturer.0 as u32,
        e.device_manufacturer.1 as u32,
        e.device_manufacturer.2 as u32,
        e.device_family as u32,
        e.device_family_model_number as u32,
        e.software_version.0 as u32,
        e.software_version.1 as u32,
        e.software_version.2 as u32,
        e.software_version.3 as u32,
    ];
    of_kind(Kind::DeviceIdentity, 1, &ns)
}

pub fn of_function_block_info(e: FunctionBlockInfo) -> Numbers
    ensures { result ≡ as_numbers (M.FunctionBlockInfo e) }
{
    let ns = [
        e.active as u32,
        e.function_block_number as u32,
        u32::from(e.ui_hint),
        u32::from(e.midi1_port),
        u32::from(e.direction),
        e.first_group as u32,
        e.number_of_groups_spanned as u32,
        e.midi_ci_version as u32,
        e.max_number_of_midi_ci_streams as u32,
    ];
    of_kind(Kind::FunctionBlockInfo, 1, &ns)
}

// A text kind: its packets, and the number of a block name.
pub fn of_text(kind: Kind, packets: usize, number: u32) -> Numbers
    ensures { result ≡ one_number (layout kind).status packets number }
{
    of_kind(kind, packets, &[number])
}

// No record: where a call is refused.
pub fn no_numbers() -> Numbers
    ensures { result ≡ no_numbers }
{
    Numbers {
        status: 0,
        packets: 0,
        first: 0,
        second: 0,
        third: 0,
        fourth: 0,
        fifth: 0,
        sixth: 0,
        seventh: 0,
        eighth: 0,
        ninth: 0,
        reserved: Reserved(0, 0, 0, 0, 0),
    }
}

pub fn numbers_of(message: Message) -> Numbers
    ensures { result ≡ as_numbers message }
{
    match message {
        Message::EndpointDiscovery(e) => of_endpoint_discovery(e),
        Message::EndpointInfo(e) => of_endpoint_info(e),
        Message::DeviceIdentity(e) => of_device_identity(e),
        Message::EndpointName(packets) => of_text(Kind::EndpointName, packets.0, 0),
        Message::ProductInstanceId(packets) => of_text(Kind::ProductInstanceId, packets.0, 0),
        Message::FunctionBlockInfo(e) => of_function_block_info(e),
        Message::FunctionBlockName {
            function_block,
            packets,
        } => of_text(Kind::FunctionBlockName, packets.0, function_block as u32),
    }
}
