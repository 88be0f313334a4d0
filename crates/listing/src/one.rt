// Reads one message and lists it as the listing does, without a position.
ghost use Rattle.standard.specs.Reading.{read_of};
ghost use Rattle.ascii_lines.specs.Page.{Puts};
ghost use Rattle.listing.specs.Lines.{read_shown};

use crate::answers::put_refusal;
use crate::messages::put_message;
use ascii_lines::Writer;

pub fn show(writer: &mut Writer, words: &[u32])
    ensures { Puts writer.old (read_shown (read_of words.now) words.now) writer.new }
{
    match reading::message::read(words) {
        Ok(message) => put_message(writer, message, words),
        Err(refusal) => put_refusal(writer, refusal),
    }
}
