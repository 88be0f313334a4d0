// The record of each kind, from the words of its message.
ghost use Rattle.std.specs.Prelude.{◌≡◌, ◌≤◌, ◌+◌, ◌*◌, length};
ghost use Rattle.bit_ops.specs.Parts.{part_in};
ghost use Rattle.kinds.specs.declared.kind.Kind.TheVariants as K;
ghost use Rattle.standard.specs.Reading.{message_at, read_body};

use kinds::choices::{Direction, Midi1Port, hint_of_valid_code};
use kinds::refusal::Refusal;
use records::device_identity::{DeviceIdentity, Manufacturer, SoftwareVersion};
use records::endpoint_discovery::EndpointDiscovery;
use records::endpoint_info::EndpointInfo;
use records::function_block_info::FunctionBlockInfo;
use records::message::Message;
use text::packets::packets_of;

#[tactic(auto, unfolding(crate::proofs::Bodies::from_words))]
pub(crate) fn endpoint_discovery(words: &[u32]) -> Message
    requires { 4 ≤ length words.now }
    ensures { result ≡ message_at K.EndpointDiscovery words.now }
{
    let a = words[0];
    let b = words[1];
    Message::EndpointDiscovery(EndpointDiscovery {
        ump_version_major: bit_ops::octet(a, 2),
        ump_version_minor: bit_ops::octet(a, 3),
        request_endpoint_info: bit_ops::bit(b, 31),
        request_device_identity: bit_ops::bit(b, 30),
        request_endpoint_name: bit_ops::bit(b, 29),
        request_product_instance_id: bit_ops::bit(b, 28),
        request_stream_configuration: bit_ops::bit(b, 27),
    })
}

#[tactic(auto, unfolding(crate::proofs::Bodies::from_words))]
pub(crate) fn endpoint_info(words: &[u32]) -> Message
    requires { 4 ≤ length words.now }
    ensures { result ≡ message_at K.EndpointInfo words.now }
{
    let a = words[0];
    let b = words[1];
    Message::EndpointInfo(EndpointInfo {
        ump_version_major: bit_ops::octet(a, 2),
        ump_version_minor: bit_ops::octet(a, 3),
        static_function_blocks: bit_ops::bit(b, 0),
        supports_midi2_protocol: bit_ops::bit(b, 22),
        supports_midi1_protocol: bit_ops::bit(b, 23),
        supports_receiving_jr_timestamps: bit_ops::bit(b, 30),
        supports_sending_jr_timestamps: bit_ops::bit(b, 31),
        number_of_function_blocks: bit_ops::septet(b, 0),
    })
}

// The fourteen bits of two octets, the low seven first.
fn pair(w: u32, low: usize, high: usize) -> u16
    ensures { result ≡ part_in 8 7 w low + part_in 8 7 w high * 128 }
{
    u16::from(bit_ops::septet(w, low)) + u16::from(bit_ops::septet(w, high)) * 128
}

#[tactic(auto, unfolding(crate::proofs::Bodies::from_words))]
pub(crate) fn device_identity(words: &[u32]) -> Message
    requires { 4 ≤ length words.now }
    ensures { result ≡ message_at K.DeviceIdentity words.now }
{
    let b = words[1];
    let c = words[2];
    let d = words[3];
    Message::DeviceIdentity(DeviceIdentity {
        device_manufacturer: Manufacturer(
            bit_ops::septet(b, 1),
            bit_ops::septet(b, 2),
            bit_ops::septet(b, 3),
        ),
        device_family: pair(c, 0, 1),
        device_family_model_number: pair(c, 2, 3),
        software_version: SoftwareVersion(
            bit_ops::septet(d, 0),
            bit_ops::septet(d, 1),
            bit_ops::septet(d, 2),
            bit_ops::septet(d, 3),
        ),
    })
}

#[tactic(auto, unfolding(records::specs::Records::record_of))]
pub(crate) fn endpoint_name(words: &[u32]) -> Message
    ensures { result ≡ message_at K.EndpointName words.now }
{
    Message::EndpointName(packets_of(words))
}

#[tactic(auto, unfolding(records::specs::Records::record_of))]
pub(crate) fn product_instance_id(words: &[u32]) -> Message
    ensures { result ≡ message_at K.ProductInstanceId words.now }
{
    Message::ProductInstanceId(packets_of(words))
}

// Refusals 9 and 10, and else the message. Each of the four codes of a hint is one.
pub(crate) fn read_function_block_info(words: &[u32]) -> Result<Message, Refusal>
    requires { 4 ≤ length words.now }
    ensures { result ≡ read_body K.FunctionBlockInfo words.now }
{
    let a = words[0];
    let b = words[1];
    let Ok(midi1_port) = Midi1Port::try_from(bit_ops::crumb(a, 14) as u32) else {
        return Err(Refusal::BadPort);
    };
    let Ok(direction) = Direction::try_from(bit_ops::crumb(a, 15) as u32) else {
        return Err(Refusal::BadDirection);
    };
    Ok(Message::FunctionBlockInfo(FunctionBlockInfo {
        active: bit_ops::bit(a, 16),
        function_block_number: bit_ops::septet(a, 2),
        ui_hint: hint_of_valid_code(bit_ops::crumb(a, 13)),
        midi1_port,
        direction,
        first_group: bit_ops::nibble(b, 1),
        number_of_groups_spanned: bit_ops::octet(b, 1),
        midi_ci_version: bit_ops::octet(b, 2),
        max_number_of_midi_ci_streams: bit_ops::octet(b, 3),
    }))
}

#[tactic(auto, unfolding(crate::proofs::Bodies::from_words))]
pub(crate) fn function_block_name(words: &[u32]) -> Message
    requires { 4 ≤ length words.now }
    ensures { result ≡ message_at K.FunctionBlockName words.now }
{
    Message::FunctionBlockName {
        function_block: bit_ops::octet(words[0], 2),
        packets: packets_of(words),
    }
}
