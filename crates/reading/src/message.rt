// Reading one message: refusals 1 to 11, in that order, each over all packets; else the record.
ghost use Rattle.std.specs.Prelude.{◌≡◌, ◌≤◌, length};
ghost use Rattle.counts.specs.Counts.{packet};
ghost use Rattle.kinds.specs.Layout.{most_of};
ghost use Rattle.standard.specs.Heads.{packets_of};
ghost use Rattle.standard.specs.Reading.{read_body, read_kind, read_of};
ghost use Rattle.reading.specs.Bodies.{fields_read, rules_read, text_checked};
ghost use Rattle.reading.specs.OnePass.{heads_right};

use crate::from_words;
use crate::heads::{format_of, status_of, type_of};
use crate::helpers::offset_of;
use crate::one_pass::headed_packets;
use crate::rules::first_packet;
use counts::{PacketNumber, first_word};
use kinds::kind::Kind;
use kinds::refusal::Refusal;
use records::message::Message;
use table::rows::{kind_of, row_of};
use text::packets::{due_format, packets_of};
use text_check::good_text;

// A fixed kind is one packet, text at most 64.
pub(crate) fn most_packets(kind: Kind) -> PacketNumber
    ensures { result ≡ packet (most_of kind) }
{
    let row = row_of(kind);
    PacketNumber(row.most_packets)
}

// Refusal 11 where the text is not UTF-8. `&words[0..]` makes the compiler pass the slice in registers.
fn check_text(kind: Kind, words: &[u32]) -> Result<(), Refusal>
    ensures { result ≡ text_checked kind words.now }
{
    if !good_text(&words[0..], offset_of(kind)) {
        return Err(Refusal::NotUtf8);
    }
    Ok(())
}

// Here, in from_words.rt and in helpers.rt words are at least four, as `read` has seen: a type that says so would wrap the slice for private functions alone.
// Refusals 9, 10 and 11, else the message. Text returns by itself: as one value of the `match` a read took 25 instructions more.
fn read_body(kind: Kind, words: &[u32]) -> Result<Message, Refusal>
    requires { 4 ≤ length words.now }
    ensures { result ≡ read_body kind words.now }
{
    match kind {
        Kind::EndpointDiscovery => Ok(from_words::endpoint_discovery(words)),
        Kind::EndpointInfo => Ok(from_words::endpoint_info(words)),
        Kind::DeviceIdentity => Ok(from_words::device_identity(words)),
        Kind::EndpointName => {
            check_text(kind, words)?;
            return Ok(from_words::endpoint_name(words));
        }
        Kind::ProductInstanceId => {
            check_text(kind, words)?;
            return Ok(from_words::product_instance_id(words));
        }
        Kind::FunctionBlockInfo => from_words::read_function_block_info(words),
        Kind::FunctionBlockName => {
            check_text(kind, words)?;
            return Ok(from_words::function_block_name(words));
        }
    }
}

// Refusals 8 to 11, else the message. If text starts later than octet 2, each packet has a field. Two calls of `read_body`: the compiler knows the kind at the second.
pub(crate) fn read_fields(kind: Kind, words: &[u32]) -> Result<Message, Refusal>
    requires { (4 ≤ length words.now) × (packets_of words.now ≤ most_of kind) }
    ensures { result ≡ fields_read kind words.now }
{
    if offset_of(kind) == 0 {
        return read_body(kind, words);
    }
    let block = bit_ops::octet(words[0], 2);
    if let Some(p) = first_packet(words, |head, _| bit_ops::octet(head, 2) != block) {
        return Err(Refusal::BlockNumberDiffers(p));
    }
    read_body(kind, words)
}

// Refusals 6 to 11, else the message.
fn read_kind(kind: Kind, words: &[u32]) -> Result<Message, Refusal>
    requires { 4 ≤ length words.now }
    ensures { result ≡ read_kind kind words.now }
{
    let status = status_of(words[0]);
    if let Some(p) = first_packet(words, |head, _| status_of(head) != status) {
        return Err(Refusal::StatusDiffers(p));
    }
    let n = packets_of(words);
    if most_packets(kind).0 < n.0 {
        return Err(Refusal::WrongFormat(PacketNumber(1)));
    }
    if let Some(p) = first_packet(words, |head, p| format_of(head) != due_format(n, p)) {
        return Err(Refusal::WrongFormat(p));
    }
    read_fields(kind, words)
}

// Whether one pass over the heads rules out refusals 4 to 8, for a message of this kind in n packets. The compiler makes a loop for each offset.
// n is a plain number: LLVM forgets that a number in a struct is at most 64.
fn heads_right(kind: Kind, words: &[u32], n: usize) -> bool
    ensures { result ≡ heads_right kind words.now n }
{
    if most_packets(kind).0 < n {
        return false;
    }
    let headed = if offset_of(kind) == 0 {
        headed_packets(words, 0)
    } else {
        headed_packets(words, 1)
    };
    headed.map_or(0, |packets| packets.0) == n
}

// Refusals 4 to 11, one rule after the other, else the message.
fn read_rules(words: &[u32]) -> Result<Message, Refusal>
    requires { 4 ≤ length words.now }
    ensures { result ≡ rules_read words.now }
{
    if let Some(p) = first_packet(words, |head, _| type_of(head) != 15) {
        return Err(Refusal::WrongType(p));
    }
    let Some(kind) = kind_of(status_of(words[0])) else {
        return Err(Refusal::UnknownStatus);
    };
    read_kind(kind, words)
}

// Reads one message. Fast path: if one pass finds every head right, skip refusals 4 to 8.
#[tactic(auto, unfolding(standard::specs::Reading::read_of))]
pub fn read(words: &[u32]) -> Result<Message, Refusal>
    ensures { result ≡ read_of words.now }
{
    if words.len() < 4 {
        return Err(Refusal::TooFewWords);
    }
    if words.len() % 4 != 0 {
        return Err(Refusal::NotWholePackets);
    }
    let n = packets_of(words).0;
    if n > 64 {
        return Err(Refusal::TooManyPackets);
    }
    let to = first_word(PacketNumber(n)).0;
    let packets = &words[..to];
    if let Some(kind) = kind_of(status_of(words[0])) {
        if heads_right(kind, packets, n) {
            return read_body(kind, packets);
        }
    }
    read_rules(packets)
}
