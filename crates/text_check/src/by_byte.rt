// The plain check of text in packets, byte by byte. It also finds where the text is bad. Zero bytes are skipped, and the text is never copied.
ghost use Rattle.std.specs.Prelude.{◌≡◌, ◌+◌, ◌-◌, ◌*◌, ◌/◌, ◌<◌, length, Ok};
ghost use Rattle.utf8.specs.Utf8.{first_bad};
ghost use Rattle.text.specs.Bytes.{text_of};
ghost use Rattle.text_check.specs.ByByte.{HasRead};

use counts::{PacketNumber, TextByteNumber, WordNumber};
use text::{TextPlace, by_byte};
use utf8::skipping_zeros::SkippingScan;

// The check after the text of one more packet.
fn after_packet(
    check: SkippingScan,
    words: &[u32],
    offset: usize,
    packet: PacketNumber,
) -> Result<SkippingScan, TextByteNumber>
    requires in_words { packet.0 < length words.now / 4 }
    requires before { HasRead words.now (14 - offset) (length words.now / 4) (Ok check) (packet.0 * (14 - offset)) }
    ensures { HasRead words.now (14 - offset) (length words.now / 4) result ((packet.0 + 1) * (14 - offset)) }
{
    let mut check = check;
    for b in 0..usize::saturating_sub(14, offset) {
        let at = TextPlace {
            packet,
            byte: TextByteNumber(b),
        };
        check = check.after_byte(by_byte::text_byte(words, offset, at))?;
    }
    Ok(check)
}

// Whether the text of the whole packets is UTF-8; if not, where its first bad character starts.
pub(crate) fn check_text(words: &[u32], offset: usize) -> Result<(), TextByteNumber>
    ensures { result ≡ first_bad (text_of words.now (14 - offset) (length words.now / 4)) }
{
    let packets = counts::whole_packets(WordNumber(words.len()));
    let mut check = SkippingScan::before_text();
    for p in 0..packets.0 {
        check = after_packet(check, words, offset, PacketNumber(p))?;
    }
    check.verdict_at_end()
}
