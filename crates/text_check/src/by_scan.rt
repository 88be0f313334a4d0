// The scan where a look does not tell: the four octets of a word, with the scan held as one number between words. No place is kept, so each byte is taken as byte 0.
ghost use Rattle.std.specs.Prelude.{◌≡◌, Ok};
ghost use Rattle.text_check.specs.FastCheck.{after_text_byte, none_open, character_of, number_of, after_octets, after_word};

use counts::TextByteNumber;
use utf8::scan::LastCharacter;

// The number of bad text: a byte from FF to 80 is due. One number stands for a scan between words, since a `Result` of a struct would go through memory there.
pub(crate) const BAD: u64 = 0x3F7F01;

// The character that s stands for: `due` in the lowest octet, then how far `low` is above 80 and how far `high` is below BF.
#[tactic(auto, unfolding(crate::specs::FastCheck::character_of))]
fn character_of(s: u64) -> LastCharacter
    ensures { result ≡ character_of s }
{
    LastCharacter {
        due: (s % 0x100) as u8,
        low: 0x80 + (s / 0x100 % 0x80) as u8,
        high: 0xBF - (s / 0x10000 % 0x40) as u8,
        start: TextByteNumber(0),
    }
}

// The number of a character.
#[tactic(auto, unfolding(crate::specs::FastCheck::number_of))]
fn number_of(c: LastCharacter) -> u64
    ensures { result ≡ number_of (Ok c) }
{
    (0x3F - c.high % 0x40) as u64 * 0x10000 + (c.low % 0x80) as u64 * 0x100 + c.due as u64
}

// The scan after byte b of a packet's text. A zero byte is dropped.
#[inline(always)]
#[tactic(auto, unfolding(crate::specs::FastCheck::after_text_byte))]
fn after_text_byte(c: LastCharacter, b: u8) -> Result<LastCharacter, TextByteNumber>
    ensures { result ≡ after_text_byte (Ok c) b }
{
    if b == 0 {
        return Ok(c);
    }
    c.after_byte(TextByteNumber(0), b)
}

// Whether no byte of the character is due.
#[tactic(auto, unfolding(crate::specs::FastCheck::none_open))]
pub(crate) fn none_open(c: LastCharacter) -> bool
    ensures { result ≡ none_open (Ok c) }
{
    c.due == 0
}

// The scan after the four octets of w.
#[tactic(auto, unfolding(text::specs::Octets::octet_of), using(crate::proofs::KnownSteps::stopped_stays))]
fn after_octets(c: LastCharacter, w: u32) -> Result<LastCharacter, TextByteNumber>
    ensures { result ≡ after_octets (Ok c) w }
{
    let [first, second, third, fourth] = w.to_be_bytes();
    let c = after_text_byte(c, first)?;
    let c = after_text_byte(c, second)?;
    let c = after_text_byte(c, third)?;
    after_text_byte(c, fourth)
}

// The number after the four octets of w.
#[tactic(auto, unfolding(crate::specs::FastCheck::after_word, crate::specs::FastCheck::number_of))]
pub(crate) fn after_word_by_scan(s: u64, w: u32) -> u64
    ensures { result ≡ after_word s w }
{
    match after_octets(character_of(s), w) {
        Ok(c) => number_of(c),
        Err(_) => BAD,
    }
}
