// The text of a message's words, in hex. The offset is a number passed in: the laws of steps are of one below 14, so three functions ask for that.
ghost use Rattle.std.specs.Prelude.{◌++◌, ◌-◌, ◌/◌, ◌<◌, length};
ghost use Rattle.laws.specs.Lists.{each};
ghost use Rattle.text.specs.Bytes.{text_of};
ghost use Rattle.ascii_lines.specs.Ascii.{ascii};
ghost use Rattle.ascii_lines.specs.Page.{Puts};
ghost use Rattle.ascii_lines.specs.Numbers.{hex_byte, hex_or_dash};

use ascii_lines::Writer;
use text::by_byte;

// Each byte that is not zero. A `loop`: of a pattern in the head of a `while let` the proof has no fact to name.
fn put_bytes(writer: &mut Writer, words: &[u32], offset: usize)
    requires { offset < 14 }
    ensures { Puts writer.old (each hex_byte (text_of words.now (14 - offset) (length words.now / 4))) writer.new }
{
    let mut place = by_byte::start();
    loop {
        let stepped = by_byte::step(words, offset, place);
        let Some(byte) = stepped.step else {
            return;
        };
        writer.put_hex(byte);
        place = stepped.place;
    }
}

// A space and the text, or `-` where it is empty.
pub(crate) fn put_shown(writer: &mut Writer, words: &[u32], offset: usize)
    requires { offset < 14 }
    ensures { Puts writer.old (ascii " " ++ hex_or_dash (text_of words.now (14 - offset) (length words.now / 4))) writer.new }
{
    writer.put_byte(b' ');
    let first = by_byte::step(words, offset, by_byte::start());
    match first.step {
        None => writer.put_byte(b'-'),
        Some(_) => put_bytes(writer, words, offset),
    }
}
