// Settings chained on a record, each field of each kind once. Numbers go up from n, so that a large n is refused in the middle of a chain.
use kinds::choices::{Direction, Midi1Port, UiHint};
use kinds::kind::Kind;
use records::answers::Edited;
use records::message::Message;

// The number `by` above n.
fn up(n: u16, by: u16) -> u32 {
    u32::from(n) + u32::from(by)
}

// Bit i of n, from the lowest.
fn on(n: u16, i: usize) -> bool {
    bit_ops::bit(u32::from(n), 31 - i % 32)
}

// The choices by name, so that the codes of kinds, which are printed, are held to the stored lines.
fn hint(n: u16) -> UiHint {
    match n % 4 {
        0 => UiHint::Undeclared,
        1 => UiHint::Receiver,
        2 => UiHint::Sender,
        _ => UiHint::SenderReceiver,
    }
}

fn port(n: u16) -> Midi1Port {
    match n % 3 {
        0 => Midi1Port::None,
        1 => Midi1Port::DontRestrictBandwidth,
        _ => Midi1Port::RestrictBandwidth,
    }
}

fn direction(n: u16) -> Direction {
    match n % 3 {
        0 => Direction::Input,
        1 => Direction::Output,
        _ => Direction::Bidirectional,
    }
}

// Document 01's case 11, chained on the record itself: version 1.1, static, four blocks, both protocols.
pub(crate) fn case_eleven(m: Message) -> Edited {
    m.set_ump_version_major(1)
        .set_ump_version_minor(1)
        .set_static_function_blocks(true)
        .set_number_of_function_blocks(4)
        .set_supports_midi2_protocol(true)
        .set_supports_midi1_protocol(true)
}

fn discovery(e: Edited, n: u16) -> Edited {
    e.set_ump_version_major(u32::from(n))
        .set_ump_version_minor(up(n, 1))
        .set_request_endpoint_info(on(n, 0))
        .set_request_device_identity(on(n, 1))
        .set_request_endpoint_name(on(n, 2))
        .set_request_product_instance_id(on(n, 3))
        .set_request_stream_configuration(on(n, 4))
}

fn info(e: Edited, n: u16) -> Edited {
    e.set_ump_version_major(u32::from(n))
        .set_ump_version_minor(up(n, 1))
        .set_static_function_blocks(on(n, 0))
        .set_supports_midi2_protocol(on(n, 1))
        .set_supports_midi1_protocol(on(n, 2))
        .set_supports_receiving_jr_timestamps(on(n, 3))
        .set_supports_sending_jr_timestamps(on(n, 4))
        .set_number_of_function_blocks(up(n, 2))
}

fn identity(e: Edited, n: u16) -> Edited {
    e.set_device_manufacturer(u32::from(n), up(n, 1), up(n, 2))
        .set_device_family(up(n, 3))
        .set_device_family_model_number(up(n, n))
        .set_software_version(up(n, 4), up(n, 5), up(n, 6), up(n, 7))
}

fn block_info(e: Edited, n: u16) -> Edited {
    e.set_active(on(n, 0))
        .set_function_block_number(up(n, 1))
        .set_ui_hint(hint(n))
        .set_midi1_port(port(n))
        .set_direction(direction(n))
        .set_first_group(up(n, 2))
        .set_number_of_groups_spanned(up(n, 3))
        .set_midi_ci_version(up(n, 4))
        .set_max_number_of_midi_ci_streams(up(n, 5))
}

// Text is in no record, so it is refused by 13; the block number is a block name's alone.
fn texts(e: Edited, n: u16) -> Edited {
    e.set_function_block(u32::from(n))
        .set_name(b"name")
        .set_id(b"id")
}

// The settings of one kind, chained.
pub(crate) fn own(e: Edited, kind: Kind, n: u16) -> Edited {
    match kind {
        Kind::EndpointDiscovery => discovery(e, n),
        Kind::EndpointInfo => info(e, n),
        Kind::DeviceIdentity => identity(e, n),
        Kind::FunctionBlockInfo => block_info(e, n),
        Kind::EndpointName | Kind::ProductInstanceId | Kind::FunctionBlockName => texts(e, n),
    }
}

// The settings of all kinds, chained: those that a record lacks are refused by 13.
pub(crate) fn every(e: Edited, n: u16) -> Edited {
    let a = identity(e, n);
    let b = texts(a, n);
    let c = block_info(b, n);
    let d = discovery(c, n);
    info(d, n)
}
