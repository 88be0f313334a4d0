// The check one byte at a time: the character that the text has reached, that character after one more byte, and the verdict at the end. An `Err` has the place where the first bad character starts.
ghost use Rattle.std.specs.Prelude.{◌≡◌, Ok};
ghost use Rattle.utf8.specs.Scan.{tails_due, second_due, new_scan, after_first_byte, after_byte, verdict_at_end};

use crate::first_byte;
use counts::TextByteNumber;

// The character that the text has reached: it started at byte `start`, and `due` of its bytes are still to come, the next of them from `low` to `high`.
#[derive(Clone, Copy)]
pub struct LastCharacter {
    pub due: u8,
    pub low: u8,
    pub high: u8,
    pub start: TextByteNumber,
}

// Going on with `due` bytes still to come, each from 80 to BF. This and the next answer a `Result`, since LLVM packs the fields of a struct alone into one number (tried: 1.4 times as long).
#[inline(always)]
fn tails_due(due: u8, start: TextByteNumber) -> Result<LastCharacter, TextByteNumber>
    ensures { result ≡ Ok (tails_due due start) }
{
    Ok(LastCharacter {
        due,
        low: 0x80,
        high: 0xBF,
        start,
    })
}

// The same after first byte b, which may narrow the range of the second.
#[inline(always)]
fn second_due(due: u8, b: u8, start: TextByteNumber) -> Result<LastCharacter, TextByteNumber>
    ensures { result ≡ Ok (second_due due b start) }
{
    let (low, high) = first_byte::second_range(b);
    Ok(LastCharacter {
        due,
        low,
        high,
        start,
    })
}

impl LastCharacter {
    // Before a text no byte is due, as after a whole character.
    pub fn before_text() -> LastCharacter
        ensures { result ≡ new_scan }
    {
        LastCharacter {
            due: 0,
            low: 0x80,
            high: 0xBF,
            start: TextByteNumber(0),
        }
    }

    // The character that byte b, number `at`, starts. C0 and C1 would start characters in more bytes than they need, F5 and above no character.
    #[inline(always)]
    #[tactic(auto, unfolding(crate::specs::Scan::after_first_byte))]
    fn after_first_byte(at: TextByteNumber, b: u8) -> Result<LastCharacter, TextByteNumber>
        ensures { result ≡ after_first_byte at b }
    {
        match first_byte::char_length(b) {
            Some(1) => tails_due(0, at),
            Some(2) if 0xC2 <= b => tails_due(1, at),
            Some(3) => second_due(2, b, at),
            Some(4) if b <= 0xF4 => second_due(3, b, at),
            _ => Err(at),
        }
    }

    // The character that byte b, number `at`, belongs to. Inlined, as what it calls is, since a call would pass the struct through memory.
    #[inline(always)]
    #[tactic(auto, unfolding(crate::specs::Scan::after_byte))]
    pub fn after_byte(self, at: TextByteNumber, b: u8) -> Result<LastCharacter, TextByteNumber>
        ensures { result ≡ after_byte (Ok self) at b }
    {
        if self.due == 0 {
            return LastCharacter::after_first_byte(at, b);
        }
        if b < self.low || self.high < b {
            return Err(self.start);
        }
        tails_due(self.due - 1, self.start)
    }

    // The verdict if the text ends here.
    #[tactic(auto, unfolding(crate::specs::Scan::verdict_at_end))]
    pub fn verdict_at_end(self) -> Result<(), TextByteNumber>
        ensures { result ≡ verdict_at_end (Ok self) }
    {
        if self.due == 0 {
            Ok(())
        } else {
            Err(self.start)
        }
    }
}

// For a caller that keeps a check whether or not it stopped: the check after byte b, number `at`. One that stopped stays as it is.
#[tactic(auto, unfolding(crate::specs::Scan::after_byte))]
pub fn after_byte(
    scan: Result<LastCharacter, TextByteNumber>,
    at: TextByteNumber,
    b: u8,
) -> Result<LastCharacter, TextByteNumber>
    ensures { result ≡ after_byte scan at b }
{
    scan?.after_byte(at, b)
}

// The verdict of such a check if the text ends here.
#[tactic(auto, unfolding(crate::specs::Scan::verdict_at_end))]
pub fn verdict_at_end(scan: Result<LastCharacter, TextByteNumber>) -> Result<(), TextByteNumber>
    ensures { result ≡ verdict_at_end scan }
{
    scan?.verdict_at_end()
}
