// The listing: big-endian words, the walk over them, and a line for each of its answers.
#![tactic(auto)]

ghost use Rattle.ascii_lines.specs.Page.{Puts};
ghost use Rattle.listing.specs.Listed.{Listed};
ghost use Rattle.listing.specs.Listing.{listing_of};

mod answers;
mod messages;
pub mod one;
mod shown;
pub mod words;

use answers::{put_end, put_lines};
use ascii_lines::Writer;
use words::read_words;

// Bytes that hold any listing: specs/Listed.antt, `listing_room`.
pub const LISTING_ROOM: usize = 139_275;

fn put_listing(writer: &mut Writer, bytes: &[u8])
    ensures { Puts writer.old (listing_of bytes.now) writer.new }
{
    if 32768 < bytes.len() {
        writer.put_text(b"input too long\n");
        return;
    }
    let mut words = [0u32; 8192];
    let n = read_words(bytes, &mut words);
    put_lines(writer, &words[..n]);
    put_end(writer, n, bytes.len() % 4);
}

// THE LISTING of a slice of bytes, put into a lent buffer, and how many bytes it took. A buffer of LISTING_ROOM bytes holds any.
pub fn list(bytes: &[u8], out: &mut [u8]) -> usize
    ensures { Listed bytes.now out.old result out.new }
{
    let mut writer = Writer::new(out);
    put_listing(&mut writer, bytes);
    writer.end()
}
