// The check of a text with its zero bytes skipped, so that the text need not be copied without them.
ghost use Rattle.std.specs.Prelude.{◌≡◌, Ok};
ghost use Rattle.utf8.specs.Scan.{new_skipping_scan, after_read, new_kept_scan, after_kept, verdict_at_end};

use crate::scan;
use crate::scan::LastCharacter;
use counts::TextByteNumber;

// The character reached, and the number of nonzero bytes read so far.
#[derive(Clone, Copy)]
pub struct SkippingScan {
    pub last: LastCharacter,
    pub at: TextByteNumber,
}

impl SkippingScan {
    // A check that has read nothing.
    pub fn before_text() -> SkippingScan
        ensures { result ≡ new_skipping_scan }
    {
        SkippingScan {
            last: LastCharacter::before_text(),
            at: TextByteNumber(0),
        }
    }

    // The check after one more byte. A zero byte changes nothing.
    #[tactic(auto, unfolding(crate::specs::Scan::after_read))]
    pub fn after_byte(self, b: u8) -> Result<SkippingScan, TextByteNumber>
        ensures { result ≡ after_read (Ok self) b }
    {
        if b == 0 {
            return Ok(self);
        }
        Ok(SkippingScan {
            last: self.last.after_byte(self.at, b)?,
            at: TextByteNumber(std::num::wrapping_add_usize(self.at.0, 1)),
        })
    }

    // The verdict if the text ends here.
    pub fn verdict_at_end(self) -> Result<(), TextByteNumber>
        ensures { result ≡ verdict_at_end (Ok self.last) }
    {
        self.last.verdict_at_end()
    }
}

// For a caller that keeps a check whether or not it stopped: the check after one more byte. One that stopped stays as it is.
#[tactic(auto, unfolding(crate::specs::Scan::after_read))]
pub fn after_byte(
    check: Result<SkippingScan, TextByteNumber>,
    b: u8,
) -> Result<SkippingScan, TextByteNumber>
    ensures { result ≡ after_read check b }
{
    check?.after_byte(b)
}

// A check that is kept whether or not it stopped, and the number of nonzero bytes read so far, those after a stop too.
#[derive(Clone, Copy)]
pub struct KeptScan {
    pub scan: Result<LastCharacter, TextByteNumber>,
    pub at: TextByteNumber,
}

impl KeptScan {
    // A check that has read nothing.
    pub fn before_text() -> KeptScan
        ensures { result ≡ new_kept_scan }
    {
        KeptScan {
            scan: Ok(LastCharacter::before_text()),
            at: TextByteNumber(0),
        }
    }
}

// The kept check after one more byte. A zero byte changes nothing; after a stop the others are still counted.
#[tactic(auto, unfolding(crate::specs::Scan::after_kept))]
pub fn read_byte(check: KeptScan, b: u8) -> KeptScan
    ensures { result ≡ after_kept check b }
{
    match b {
        0 => check,
        _ => KeptScan {
            scan: scan::after_byte(check.scan, check.at, b),
            at: TextByteNumber(std::num::wrapping_add_usize(check.at.0, 1)),
        },
    }
}
