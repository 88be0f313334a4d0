// Device identity, status 0x02: settings on words and on a record.
ghost use Rattle.std.specs.Prelude.{◌≡◌};
ghost use Rattle.kinds.specs.Fields.{Pair, Setting};
ghost use Rattle.standard.specs.Words.{set_on};
ghost use Rattle.c_structs.specs.Crossed.{answered};
ghost use Rattle.frayedbin.specs.Calls.{set_in};

use crate::named;
use c_structs::answers::{Answered, RecordAnswer};
use kinds::kind::Kind;
use numbers::Numbers;
use numbers::to_record::record_of;
use settings::device_identity;
use table::names::PairName;

#[unsafe(no_mangle)]
pub extern "C" fn frayedbin_device_identity_set_device_manufacturer(
    words: &mut [u32],
    a: u32,
    b: u32,
    c: u32,
) -> Answered
    ensures answer { result ≡ answered (set_on (Setting.device_manufacturer a b c) words.old).answer }
    ensures buffer { words.new ≡ (set_on (Setting.device_manufacturer a b c) words.old).words }
{
    Answered::from(device_identity::set_device_manufacturer(words, a, b, c))
}

#[unsafe(no_mangle)]
pub extern "C" fn frayedbin_device_identity_set_device_family(
    words: &mut [u32],
    family: u32,
) -> Answered
    ensures answer { result ≡ answered (set_on (Setting.pair Pair.device_family family) words.old).answer }
    ensures buffer { words.new ≡ (set_on (Setting.pair Pair.device_family family) words.old).words }
{
    named::pair_on(words, PairName::DeviceFamily, family)
}

#[unsafe(no_mangle)]
pub extern "C" fn frayedbin_device_identity_set_device_family_model_number(
    words: &mut [u32],
    model: u32,
) -> Answered
    ensures answer { result ≡ answered (set_on (Setting.pair Pair.device_family_model_number model) words.old).answer }
    ensures buffer { words.new ≡ (set_on (Setting.pair Pair.device_family_model_number model) words.old).words }
{
    named::pair_on(words, PairName::DeviceFamilyModelNumber, model)
}

#[unsafe(no_mangle)]
pub extern "C" fn frayedbin_device_identity_set_software_version(
    words: &mut [u32],
    a: u32,
    b: u32,
    c: u32,
    d: u32,
) -> Answered
    ensures answer { result ≡ answered (set_on (Setting.software_version a b c d) words.old).answer }
    ensures buffer { words.new ≡ (set_on (Setting.software_version a b c d) words.old).words }
{
    Answered::from(device_identity::set_software_version(words, a, b, c, d))
}

// On a record.

#[unsafe(no_mangle)]
pub extern "C" fn frayedbin_record_set_device_manufacturer(
    record: Numbers,
    a: u32,
    b: u32,
    c: u32,
) -> RecordAnswer
    ensures { result ≡ set_in (λ k. Setting.device_manufacturer a b c) «record» }
{
    let edited = record_of(Kind::DeviceIdentity, record).map(
        |message| message.set_device_manufacturer(a, b, c),
    );
    RecordAnswer::edited(edited, record)
}

#[unsafe(no_mangle)]
pub extern "C" fn frayedbin_record_set_device_family(record: Numbers, family: u32) -> RecordAnswer
    ensures { result ≡ set_in (λ k. Setting.pair Pair.device_family family) «record» }
{
    let edited = record_of(Kind::DeviceIdentity, record).map(|message| message.set_device_family(
        family,
    ));
    RecordAnswer::edited(edited, record)
}

#[unsafe(no_mangle)]
pub extern "C" fn frayedbin_record_set_device_family_model_number(
    record: Numbers,
    model: u32,
) -> RecordAnswer
    ensures { result ≡ set_in (λ k. Setting.pair Pair.device_family_model_number model) «record» }
{
    let edited = record_of(Kind::DeviceIdentity, record).map(
        |message| message.set_device_family_model_number(model),
    );
    RecordAnswer::edited(edited, record)
}

#[unsafe(no_mangle)]
pub extern "C" fn frayedbin_record_set_software_version(
    record: Numbers,
    a: u32,
    b: u32,
    c: u32,
    d: u32,
) -> RecordAnswer
    ensures { result ≡ set_in (λ k. Setting.software_version a b c d) «record» }
{
    let edited = record_of(Kind::DeviceIdentity, record).map(|message| message.set_software_version(
        a, b, c, d,
    ));
    RecordAnswer::edited(edited, record)
}
