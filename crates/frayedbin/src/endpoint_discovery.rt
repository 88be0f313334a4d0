// Endpoint discovery, status 0x00: settings on words and on a record.
ghost use Rattle.std.specs.Prelude.{◌≡◌};
ghost use Rattle.kinds.specs.Fields.{Flag, Number, Setting};
ghost use Rattle.standard.specs.Words.{set_on};
ghost use Rattle.c_structs.specs.Crossed.{answered};
ghost use Rattle.frayedbin.specs.Calls.{set_in};

use crate::named;
use c_structs::answers::{Answered, RecordAnswer};
use numbers::Numbers;
use table::names::{FlagName, NumberName};

#[unsafe(no_mangle)]
pub extern "C" fn frayedbin_endpoint_discovery_set_ump_version_major(
    words: &mut [u32],
    version: u32,
) -> Answered
    ensures answer { result ≡ answered (set_on (Setting.number Number.discovery_version_major version) words.old).answer }
    ensures buffer { words.new ≡ (set_on (Setting.number Number.discovery_version_major version) words.old).words }
{
    named::number_on(words, NumberName::DiscoveryVersionMajor, version)
}

#[unsafe(no_mangle)]
pub extern "C" fn frayedbin_endpoint_discovery_set_ump_version_minor(
    words: &mut [u32],
    version: u32,
) -> Answered
    ensures answer { result ≡ answered (set_on (Setting.number Number.discovery_version_minor version) words.old).answer }
    ensures buffer { words.new ≡ (set_on (Setting.number Number.discovery_version_minor version) words.old).words }
{
    named::number_on(words, NumberName::DiscoveryVersionMinor, version)
}

#[unsafe(no_mangle)]
pub extern "C" fn frayedbin_endpoint_discovery_set_request_endpoint_info(
    words: &mut [u32],
    on: bool,
) -> Answered
    ensures answer { result ≡ answered (set_on (Setting.flag Flag.request_endpoint_info on) words.old).answer }
    ensures buffer { words.new ≡ (set_on (Setting.flag Flag.request_endpoint_info on) words.old).words }
{
    named::flag_on(words, FlagName::RequestEndpointInfo, on)
}

#[unsafe(no_mangle)]
pub extern "C" fn frayedbin_endpoint_discovery_set_request_device_identity(
    words: &mut [u32],
    on: bool,
) -> Answered
    ensures answer { result ≡ answered (set_on (Setting.flag Flag.request_device_identity on) words.old).answer }
    ensures buffer { words.new ≡ (set_on (Setting.flag Flag.request_device_identity on) words.old).words }
{
    named::flag_on(words, FlagName::RequestDeviceIdentity, on)
}

#[unsafe(no_mangle)]
pub extern "C" fn frayedbin_endpoint_discovery_set_request_endpoint_name(
    words: &mut [u32],
    on: bool,
) -> Answered
    ensures answer { result ≡ answered (set_on (Setting.flag Flag.request_endpoint_name on) words.old).answer }
    ensures buffer { words.new ≡ (set_on (Setting.flag Flag.request_endpoint_name on) words.old).words }
{
    named::flag_on(words, FlagName::RequestEndpointName, on)
}

#[unsafe(no_mangle)]
pub extern "C" fn frayedbin_endpoint_discovery_set_request_product_instance_id(
    words: &mut [u32],
    on: bool,
) -> Answered
    ensures answer { result ≡ answered (set_on (Setting.flag Flag.request_product_instance_id on) words.old).answer }
    ensures buffer { words.new ≡ (set_on (Setting.flag Flag.request_product_instance_id on) words.old).words }
{
    named::flag_on(words, FlagName::RequestProductInstanceId, on)
}

#[unsafe(no_mangle)]
pub extern "C" fn frayedbin_endpoint_discovery_set_request_stream_configuration(
    words: &mut [u32],
    on: bool,
) -> Answered
    ensures answer { result ≡ answered (set_on (Setting.flag Flag.request_stream_configuration on) words.old).answer }
    ensures buffer { words.new ≡ (set_on (Setting.flag Flag.request_stream_configuration on) words.old).words }
{
    named::flag_on(words, FlagName::RequestStreamConfiguration, on)
}

// On a record.

#[unsafe(no_mangle)]
pub extern "C" fn frayedbin_record_set_request_endpoint_info(
    record: Numbers,
    on: bool,
) -> RecordAnswer
    ensures { result ≡ set_in (λ k. Setting.flag Flag.request_endpoint_info on) «record» }
{
    named::flag_in(record, FlagName::RequestEndpointInfo, on)
}

#[unsafe(no_mangle)]
pub extern "C" fn frayedbin_record_set_request_device_identity(
    record: Numbers,
    on: bool,
) -> RecordAnswer
    ensures { result ≡ set_in (λ k. Setting.flag Flag.request_device_identity on) «record» }
{
    named::flag_in(record, FlagName::RequestDeviceIdentity, on)
}

#[unsafe(no_mangle)]
pub extern "C" fn frayedbin_record_set_request_endpoint_name(
    record: Numbers,
    on: bool,
) -> RecordAnswer
    ensures { result ≡ set_in (λ k. Setting.flag Flag.request_endpoint_name on) «record» }
{
    named::flag_in(record, FlagName::RequestEndpointName, on)
}

#[unsafe(no_mangle)]
pub extern "C" fn frayedbin_record_set_request_product_instance_id(
    record: Numbers,
    on: bool,
) -> RecordAnswer
    ensures { result ≡ set_in (λ k. Setting.flag Flag.request_product_instance_id on) «record» }
{
    named::flag_in(record, FlagName::RequestProductInstanceId, on)
}

#[unsafe(no_mangle)]
pub extern "C" fn frayedbin_record_set_request_stream_configuration(
    record: Numbers,
    on: bool,
) -> RecordAnswer
    ensures { result ≡ set_in (λ k. Setting.flag Flag.request_stream_configuration on) «record» }
{
    named::flag_in(record, FlagName::RequestStreamConfiguration, on)
}
