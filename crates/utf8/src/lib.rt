// UTF-8 by RFC 3629: whether a text is UTF-8, and at which byte its first bad character starts.
#![tactic(auto)]

ghost use Rattle.std.specs.Prelude.{◌≡◌};
ghost use Rattle.utf8.specs.Utf8.{first_bad};

use crate::scan::LastCharacter;
use counts::TextByteNumber;

mod first_byte;
pub mod scan;
pub mod skipping_zeros;

// Whether a text is UTF-8; if not, where its first bad character starts.
pub fn check_utf8(text: &[u8]) -> Result<(), TextByteNumber>
    ensures { result ≡ first_bad text.now }
{
    let mut last = LastCharacter::before_text();
    for (i, byte) in text.iter().enumerate() {
        last = last.after_byte(TextByteNumber(i), *byte)?;
    }
    last.verdict_at_end()
}
