// What the first byte of a character tells: the character's length, and the range of its second byte.
ghost use Rattle.std.specs.Prelude.{◌≡◌};
ghost use Rattle.utf8.specs.Scan.{char_length, unless_zero, second_low, second_high};

// The length of a character by the leading one bits of its first byte, if a character starts with that many.
pub(crate) fn char_length(b: u8) -> Option<u8>
    ensures { result ≡ unless_zero (char_length b) }
{
    match u8::leading_zeros(!b) {
        0 => Some(1),
        2 => Some(2),
        3 => Some(3),
        4 => Some(4),
        _ => None,
    }
}

// The smallest and the largest second byte after first byte b.
#[inline(always)]
#[tactic(auto, unfolding(crate::specs::Scan::second_low, crate::specs::Scan::second_high))]
pub(crate) fn second_range(b: u8) -> (u8, u8)
    ensures { result ≡ (second_low b, second_high b) }
{
    match b {
        0xE0 => (0xA0, 0xBF),
        0xED => (0x80, 0x9F),
        0xF0 => (0x90, 0xBF),
        0xF4 => (0x80, 0x8F),
        _ => (0x80, 0xBF),
    }
}
