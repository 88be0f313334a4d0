// UTF-8 checks of text in packets and of text given as bytes. A fast check says whether the text is good; only for bad text does the plain check find the place.
#![tactic(auto)]

ghost use Rattle.std.specs.Prelude.{◌≡◌, ◌-◌, ◌/◌, length};
ghost use Rattle.utf8.specs.Utf8.{first_bad};
ghost use Rattle.text.specs.Bytes.{text_of};
ghost use Rattle.text_check.specs.FastCheck.{is_good};

use counts::TextByteNumber;

mod ascii;
mod by_byte;
mod by_scan;
mod bytes;
pub mod helpers;
mod three_byte_runs;
mod words;

// Whether the text of the whole packets is UTF-8.
pub fn good_text(words: &[u32], offset: usize) -> bool
    ensures { result ≡ is_good (first_bad (text_of words.now (14 - offset) (length words.now / 4))) }
{
    words::is_good(words, offset)
}

// Whether the text of the whole packets is UTF-8; if not, where its first bad character starts.
pub fn check_text(words: &[u32], offset: usize) -> Result<(), TextByteNumber>
    ensures { result ≡ first_bad (text_of words.now (14 - offset) (length words.now / 4)) }
{
    if good_text(words, offset) {
        return Ok(());
    }
    by_byte::check_text(words, offset)
}

// Whether a text is UTF-8; if not, where its first bad character starts. The same answer as `utf8::check_utf8`, but faster.
pub fn check_utf8(text: &[u8]) -> Result<(), TextByteNumber>
    ensures { result ≡ first_bad text.now }
{
    if bytes::is_good(text) {
        return Ok(());
    }
    utf8::check_utf8(text)
}
