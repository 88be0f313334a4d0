// The fast check of a text given as bytes, where a zero byte is a character. Whole characters are skipped several at a time by looks; the scan takes the rest byte by byte.
ghost use Rattle.std.specs.Prelude.{◌≡◌, ℕ, ◌+◌, ◌<◌, ◌≤◌, length, drop, false, MatchOption};
ghost use Rattle.utf8.specs.Utf8.{first_bad};
ghost use Rattle.laws.specs.Pick.{pick};
ghost use Rattle.text.specs.BigEndian.{big_endian_at};
ghost use Rattle.text_check.specs.FastCheck.{is_good, ascii_word, run_at, whole_characters, Skipped};

use crate::ascii::ascii_word;
use crate::by_scan::none_open;
use crate::three_byte_runs::{octets, run_none_due, run_one_due, run_two_due, simple_character};
use counts::TextByteNumber;
use text::big_endian::big_endian;
use utf8::scan::LastCharacter;

// 4 if the four bytes from byte i on are ASCII, otherwise 0. Here and below 0 is a count too: no byte is skipped.
fn ascii_at(text: &[u8], i: usize) -> usize
    requires { i + 4 ≤ length text.now }
    ensures count { result ≡ pick (ascii_word (big_endian_at text.now i)) 4 0 }
    ensures skipped { Skipped text.now i (i + result) }
{
    if ascii_word(big_endian(text, i)) {
        4
    } else {
        0
    }
}

// 12 if the twelve bytes from byte i on are four simple three-byte characters, otherwise 0.
#[tactic(auto, unfolding(crate::specs::FastCheck::run_at))]
fn run_at(text: &[u8], i: usize) -> usize
    requires { i + 12 ≤ length text.now }
    ensures count { result ≡ pick (run_at text.now i) 12 0 }
    ensures skipped { Skipped text.now i (i + result) }
{
    if run_none_due(big_endian(text, i))
        && run_two_due(big_endian(text, i + 4))
        && run_one_due(big_endian(text, i + 8))
    {
        12
    } else {
        0
    }
}

// 4 if the four bytes from byte i on are ASCII, 3 if they start with a simple three-byte character, otherwise 0.
#[tactic(auto, unfolding(crate::specs::FastCheck::whole_characters))]
fn whole_at(text: &[u8], i: usize) -> usize
    requires { i + 4 ≤ length text.now }
    ensures count { result ≡ whole_characters (big_endian_at text.now i) }
    ensures skipped { Skipped text.now i (i + result) }
{
    let w = big_endian(text, i);
    let [a, b, c, _] = octets(w);
    if ascii_word(w) {
        4
    } else if simple_character(a, b, c) {
        3
    } else {
        0
    }
}

// Skips whole characters from `from` on: `whole` says how many of the next LOOK bytes are whole characters, 0 if it cannot tell. Returns where it stopped. A turn goes on by several bytes, so it is no `for`.
fn skip<const LOOK: usize, F: Fn(&[u8], usize) -> usize>(
    text: &[u8],
    from: usize,
    whole: F,
) -> usize
    requires start { from ≤ length text.now }
    requires callable { (i : ℕ) → i + LOOK ≤ length text.now → F.pre whole text i }
    requires skipped { (i k : ℕ) → i + LOOK ≤ length text.now → F.post whole text i k → Skipped text.now i (i + k) }
    ensures { Skipped text.now from result }
{
    if text.len() < LOOK {
        return from;
    }
    let last = text.len() - LOOK;
    let mut i = from;
    while i <= last {
        let k = whole(text, i);
        if k == 0 {
            return i;
        }
        i += k;
    }
    i
}

// Skips the last one to three bytes if they are ASCII or one three-byte character. Returns where it stopped.
fn skip_last(text: &[u8], from: usize) -> usize
    requires { from ≤ length text.now }
    ensures { Skipped text.now from result }
{
    let n = text.len();
    if n <= from || n < 4 || 3 < n - from {
        return from;
    }
    let w = big_endian(text, n - 4);
    if ascii_word(w) {
        return n;
    }
    let [_, b, c, d] = octets(w);
    if n - from == 3 && simple_character(b, c, d) {
        return n;
    }
    from
}

// Skips whole characters from the start of the text. Returns where it stopped.
fn skip_whole(text: &[u8]) -> usize
    ensures { Skipped text.now 0 result }
{
    let past_ascii = skip::<4, _>(text, 0, ascii_at);
    let past_runs = skip::<12, _>(text, past_ascii, run_at);
    skip_last(text, skip::<4, _>(text, past_runs, whole_at))
}

// The byte after the character that starts at byte `from`, or `None` if none starts there. No place is kept, so each byte is taken as byte 0.
fn past_character(text: &[u8], from: usize) -> Option<usize>
    requires { from < length text.now }
    ensures { MatchOption result (is_good (first_bad (drop from text.now)) ≡ false) (λ next. (from < next) × Skipped text.now from next) }
{
    let mut last = LastCharacter::before_text();
    for i in from..text.len() {
        let Ok(next) = last.after_byte(TextByteNumber(0), text[i]) else {
            return None;
        };
        if none_open(next) {
            return Some(i + 1);
        }
        last = next;
    }
    None
}

// Whether the text is UTF-8. A turn goes on by several bytes, so it is no `for`.
pub(crate) fn is_good(text: &[u8]) -> bool
    ensures { result ≡ is_good (first_bad text.now) }
{
    let mut i = skip_whole(text);
    while i < text.len() {
        let Some(next) = past_character(text, i) else {
            return false;
        };
        i = skip::<4, _>(text, next, whole_at);
    }
    true
}
