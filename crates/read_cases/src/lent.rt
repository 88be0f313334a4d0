// The text of any slice, by a text place that is kept here and lent for each byte: document 01's form of the text place.
use ascii_lines::Writer;
use text::TextPlace;

// Where the place is left after one call more, which must say end again.
fn put_left(writer: &mut Writer, words: &[u32], mut place: TextPlace) {
    match text_place::next_byte(words, &mut place) {
        Some(_) => writer.put_text(b"] more"),
        None => writer.put_named(b"]", &[place.packet.0 as u64, place.byte.0 as u64]),
    }
}

// Each byte in hex up to the end, of at most 2048, and where the place is left.
pub(crate) fn put_lent(writer: &mut Writer, words: &[u32]) {
    writer.put_text(b" lent [");
    let mut place = text::by_byte::start();
    for _ in 0..2048 {
        let Some(byte) = text_place::next_byte(words, &mut place) else {
            put_left(writer, words, place);
            return;
        };
        writer.put_hex(byte);
    }
}
