// Settings of a flag, a number or a pair by its name.
ghost use Rattle.std.specs.Prelude.{◌≡◌};
ghost use Rattle.kinds.specs.Fields.{Setting};
ghost use Rattle.table.specs.Named.{flag_named, pair_named};
ghost use Rattle.records.specs.Settings.{number_in, set_record};

use crate::answers::Edited;
use crate::message::Message;
use table::names::{FlagName, NumberName, PairName};

pub fn edit_flag(message: Message, flag: FlagName, on: bool) -> Edited
    ensures { result ≡ set_record (Setting.flag (flag_named flag) on) message }
{
    match flag {
        FlagName::RequestEndpointInfo => message.set_request_endpoint_info(on),
        FlagName::RequestDeviceIdentity => message.set_request_device_identity(on),
        FlagName::RequestEndpointName => message.set_request_endpoint_name(on),
        FlagName::RequestProductInstanceId => message.set_request_product_instance_id(on),
        FlagName::RequestStreamConfiguration => message.set_request_stream_configuration(on),
        FlagName::StaticFunctionBlocks => message.set_static_function_blocks(on),
        FlagName::SupportsMidi2Protocol => message.set_supports_midi2_protocol(on),
        FlagName::SupportsMidi1Protocol => message.set_supports_midi1_protocol(on),
        FlagName::SupportsReceivingJrTimestamps => message.set_supports_receiving_jr_timestamps(on),
        FlagName::SupportsSendingJrTimestamps => message.set_supports_sending_jr_timestamps(on),
        FlagName::Active => message.set_active(on),
    }
}

pub fn edit_number(message: Message, number: NumberName, x: u32) -> Edited
    ensures { result ≡ set_record (number_in number x message) message }
{
    match number {
        NumberName::DiscoveryVersionMajor | NumberName::InfoVersionMajor =>
            message.set_ump_version_major(x),
        NumberName::DiscoveryVersionMinor | NumberName::InfoVersionMinor =>
            message.set_ump_version_minor(x),
        NumberName::NumberOfFunctionBlocks => message.set_number_of_function_blocks(x),
        NumberName::FunctionBlockNumber => message.set_function_block_number(x),
        NumberName::FirstGroup => message.set_first_group(x),
        NumberName::NumberOfGroupsSpanned => message.set_number_of_groups_spanned(x),
        NumberName::MidiCiVersion => message.set_midi_ci_version(x),
        NumberName::MaxNumberOfMidiCiStreams => message.set_max_number_of_midi_ci_streams(x),
    }
}

pub fn edit_pair(message: Message, pair: PairName, x: u32) -> Edited
    ensures { result ≡ set_record (Setting.pair (pair_named pair) x) message }
{
    match pair {
        PairName::DeviceFamily => message.set_device_family(x),
        PairName::DeviceFamilyModelNumber => message.set_device_family_model_number(x),
    }
}
