// The record of a message. It says the kind; text is not in it, but is read from the words.
ghost use Rattle.std.specs.Prelude.{◌≡◌};
ghost use Rattle.counts.specs.Counts.{packet};
ghost use Rattle.records.specs.Records.{kind_in, packets_in};

use crate::device_identity::DeviceIdentity;
use crate::endpoint_discovery::EndpointDiscovery;
use crate::endpoint_info::EndpointInfo;
use crate::function_block_info::FunctionBlockInfo;
use counts::PacketNumber;
use kinds::kind::Kind;

#[derive(Clone, Copy)]
pub enum Message {
    EndpointDiscovery(EndpointDiscovery),
    EndpointInfo(EndpointInfo),
    DeviceIdentity(DeviceIdentity),
    EndpointName(PacketNumber),
    ProductInstanceId(PacketNumber),
    FunctionBlockInfo(FunctionBlockInfo),
    FunctionBlockName {
        function_block: u8,
        packets: PacketNumber,
    },
}

// What a record says it is.
pub fn kind_in(message: Message) -> Kind
    ensures { result ≡ kind_in message }
{
    match message {
        Message::EndpointDiscovery(_) => Kind::EndpointDiscovery,
        Message::EndpointInfo(_) => Kind::EndpointInfo,
        Message::DeviceIdentity(_) => Kind::DeviceIdentity,
        Message::EndpointName(_) => Kind::EndpointName,
        Message::ProductInstanceId(_) => Kind::ProductInstanceId,
        Message::FunctionBlockInfo(_) => Kind::FunctionBlockInfo,
        Message::FunctionBlockName { .. } => Kind::FunctionBlockName,
    }
}

// A record's packets: one of a fixed kind.
pub fn packets_in(message: Message) -> PacketNumber
    ensures { result ≡ packet (packets_in message) }
{
    match message {
        Message::EndpointName(packets)
        | Message::ProductInstanceId(packets)
        | Message::FunctionBlockName { packets, .. } => packets,
        _ => PacketNumber(1),
    }
}
