// What a refusal's number says, and the name of a status's kind, as C strings in a lent buffer.
// Each function answers the length of the whole text without its zero, so a caller sees what was cut.
#![tactic(auto)]

ghost use Rattle.std.specs.Prelude.{◌≡◌, ◌≤◌, length};
ghost use Rattle.ascii_lines.specs.Page.{Wrote};
ghost use Rattle.sentences.specs.Strings.{as_string};
ghost use Rattle.sentences.specs.Sentences.{refusal_sentence, kind_name, status_name};

use ascii_lines::Writer;
use kinds::kind::Kind;
use table::rows::kind_of;

// Writes as much of a text as the buffer has room for, and answers how much. By a writer, since a copy of a slice would make the library need memcpy from outside.
fn put_front(out: &mut [u8], text: &[u8]) -> usize
    ensures bytes { Wrote 0 out.old text.now result out.new }
    ensures within { result ≤ length out.old }
{
    let mut writer = Writer::new(out);
    writer.put_text(text);
    writer.end()
}

// Writes a text and a zero byte after it. The last byte of the buffer is kept for the zero.
#[tactic(auto, using(crate::proofs::Strings::string_ended))]
fn put_string(out: &mut [u8], text: &[u8]) -> usize
    ensures answer { result ≡ length text.now }
    ensures bytes { out.new ≡ as_string text.now out.old }
{
    if let Some(last) = out.len().checked_sub(1) {
        let end = put_front(&mut out[..last], text);
        out[end] = 0;
    }
    text.len()
}

// The sentence of a refusal's number; no text where no refusal has the number.
#[tactic(auto, unfolding(crate::specs::Sentences::sentences))]
fn sentence_of(number: u32) -> &'static [u8]
    ensures { result.now ≡ refusal_sentence number }
{
    match number {
        0 => b"done",
        1 => b"there are too few words",
        2 => b"the length is not a multiple of four words",
        3 => b"there are more than 64 packets",
        4 => b"a packet's type is not F",
        5 => b"the status is none of the seven",
        6 => b"a later packet has another status",
        7 => b"a packet's format is not the one due",
        8 => b"a later packet has another block number",
        9 => b"the MIDI 1.0 port is 3",
        10 => b"the direction is 0",
        11 => b"the text is not UTF-8",
        12 => b"a number is above its field's largest, or a code names no choice",
        13 => b"this kind has no such field",
        14 => b"there is too little room",
        _ => b"",
    }
}

// Writes the sentence of a refusal's number.
pub fn refusal_text(number: u32, out: &mut [u8]) -> usize
    ensures answer { result ≡ length (refusal_sentence number) }
    ensures bytes { out.new ≡ as_string (refusal_sentence number) out.old }
{
    put_string(out, sentence_of(number))
}

#[tactic(auto, unfolding(crate::specs::Sentences::kind_name))]
fn name_of(kind: Kind) -> &'static [u8]
    ensures { result.now ≡ kind_name kind }
{
    match kind {
        Kind::EndpointDiscovery => b"endpoint-discovery",
        Kind::EndpointInfo => b"endpoint-info",
        Kind::DeviceIdentity => b"device-identity",
        Kind::EndpointName => b"endpoint-name",
        Kind::ProductInstanceId => b"product-instance-id",
        Kind::FunctionBlockInfo => b"function-block-info",
        Kind::FunctionBlockName => b"function-block-name",
    }
}

// Writes the name of a status's kind; no text where the status is none of the seven.
pub fn kind_name(status: u32, out: &mut [u8]) -> usize
    ensures answer { result ≡ length (status_name status) }
    ensures bytes { out.new ≡ as_string (status_name status) out.old }
{
    match kind_of(status) {
        Some(kind) => put_string(out, name_of(kind)),
        None => put_string(out, b""),
    }
}
