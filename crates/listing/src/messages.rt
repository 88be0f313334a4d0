// What a line says of a message: kind name, packets, fields in the table's order, text.
ghost use Rattle.std.specs.Prelude.{◌≡◌, ◌++◌, ◌-◌, ◌/◌, ◌≤◌, ◌<◌, length, take};
ghost use Rattle.text.specs.Bytes.{text_of};
ghost use Rattle.records.specs.Records.{packets_in};
ghost use Rattle.ascii_lines.specs.Ascii.{ascii};
ghost use Rattle.ascii_lines.specs.Page.{Puts};
ghost use Rattle.ascii_lines.specs.Numbers.{numbers, hex_or_dash};
ghost use Rattle.listing.specs.Lines.{ten_of, message_shown};

use crate::shown::put_shown;
use ascii_lines::Writer;
use numbers::of_record::numbers_of;
use records::message::Message;

// A kind's name and the first `count` numbers: packets, then fields in the table's order.
fn put_fields(writer: &mut Writer, name: &[u8], message: Message, count: usize)
    requires { count ≤ 10 }
    ensures { Puts writer.old (name.now ++ numbers (take count (ten_of message))) writer.new }
{
    let n = numbers_of(message);
    let ns = [
        n.packets as u64,
        n.first as u64,
        n.second as u64,
        n.third as u64,
        n.fourth as u64,
        n.fifth as u64,
        n.sixth as u64,
        n.seventh as u64,
        n.eighth as u64,
        n.ninth as u64,
    ];
    writer.put_named(name, &ns[..count]);
}

// A kind with text: its name, its numbers, and the text of its words.
fn put_texts(
    writer: &mut Writer,
    name: &[u8],
    message: Message,
    count: usize,
    words: &[u32],
    offset: usize,
)
    requires { (count ≤ 10) × (offset < 14) }
    ensures { Puts writer.old (name.now ++ numbers (take count (ten_of message)) ++ (ascii " " ++ hex_or_dash (text_of words.now (14 - offset) (length words.now / 4)))) writer.new }
{
    put_fields(writer, name, message, count);
    put_shown(writer, words, offset);
}

// `words` holds this message and nothing else.
#[tactic(auto, unfolding(laws::specs::Lists::each, kinds::specs::Layout::layout, records::specs::Records::first_part, records::specs::Records::fields_in, records::specs::Records::lookup, kinds::specs::Fields::same, kinds::specs::Fields::decided, sentences::specs::Sentences::kind_name))]
pub(crate) fn put_message(writer: &mut Writer, message: Message, words: &[u32])
    requires { length words.now / 4 ≡ packets_in message }
    ensures { Puts writer.old (message_shown message words.now) writer.new }
{
    match message {
        Message::EndpointDiscovery(_) => put_fields(writer, b" endpoint-discovery", message, 8),
        Message::EndpointInfo(_) => put_fields(writer, b" endpoint-info", message, 9),
        Message::DeviceIdentity(_) => put_fields(writer, b" device-identity", message, 10),
        Message::EndpointName(_) => put_texts(writer, b" endpoint-name", message, 1, words, 0),
        Message::ProductInstanceId(_) => {
            put_texts(writer, b" product-instance-id", message, 1, words, 0)
        }
        Message::FunctionBlockInfo(_) => put_fields(writer, b" function-block-info", message, 10),
        Message::FunctionBlockName { .. } => put_texts(
            writer,
            b" function-block-name",
            message,
            2,
            words,
            1,
        ),
    }
}
