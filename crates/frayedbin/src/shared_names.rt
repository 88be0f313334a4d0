// Settings on a record under names that two kinds have: of status 0x00 the discovery's, else the endpoint info's.
// The status is compared as the number that C gives: a match on its kind does not prove (its last arm does not say that the kind is another).
ghost use Rattle.std.specs.Prelude.{◌≡◌};
ghost use Rattle.kinds.specs.Fields.{Setting};
ghost use Rattle.records.specs.Settings.{major_of, minor_of};
ghost use Rattle.frayedbin.specs.Calls.{set_in};

use crate::named;
use c_structs::answers::RecordAnswer;
use numbers::Numbers;
use table::names::NumberName;

#[unsafe(no_mangle)]
pub extern "C" fn frayedbin_record_set_ump_version_major(
    record: Numbers,
    version: u32,
) -> RecordAnswer
    ensures { result ≡ set_in (λ k. Setting.number (major_of k) version) «record» }
{
    if record.status == 0 {
        return named::number_in(record, NumberName::DiscoveryVersionMajor, version);
    }
    named::number_in(record, NumberName::InfoVersionMajor, version)
}

#[unsafe(no_mangle)]
pub extern "C" fn frayedbin_record_set_ump_version_minor(
    record: Numbers,
    version: u32,
) -> RecordAnswer
    ensures { result ≡ set_in (λ k. Setting.number (minor_of k) version) «record» }
{
    if record.status == 0 {
        return named::number_in(record, NumberName::DiscoveryVersionMinor, version);
    }
    named::number_in(record, NumberName::InfoVersionMinor, version)
}
