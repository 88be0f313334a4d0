// Reading, walking, sizes of types, packets, text by byte, fresh messages, writing a record, and the listing.
ghost use Rattle.std.specs.Prelude.{◌≡◌};
ghost use Rattle.standard.specs.Packet.{packet_of, message_size};
ghost use Rattle.standard.specs.Place.{next_byte};
ghost use Rattle.standard.specs.Reading.{read_of};
ghost use Rattle.standard.specs.Walk.{walk_of};
ghost use Rattle.standard.specs.Words.{fresh_on};
ghost use Rattle.c_structs.specs.Crossed.{answered, read_crossed, walk_crossed, packet_crossed, size_crossed, step_crossed, copy_crossed};
ghost use Rattle.text_copy.specs.Copied.{copy_on};
ghost use Rattle.listing.specs.Listed.{Listed};
ghost use Rattle.frayedbin.specs.Calls.{place_at, words_of_type, fresh_in, write_in};

use c_structs::answers::{
    Answered, PacketAnswer, RecordAnswer, SizeAnswer, StepAnswer, TextAnswer, WalkAnswer,
};
use counts::{PacketNumber, TextByteNumber, WordNumber};
use kinds::kind::Kind;
use kinds::refusal::Refusal;
use numbers::Numbers;
use numbers::of_record::{
    no_numbers, of_device_identity, of_endpoint_discovery, of_endpoint_info,
    of_function_block_info, of_text,
};
use numbers::to_record::fixed_record;
use reading::heads::type_of;
use reading::{by_byte, message, packet};
use records::answers::Walked;
use records::message::Message;
use table::rows::kind_of;
use text::TextPlace;
use text_copy::{NotCopied, copy_kind};
use walking::helpers::other_size;
use walking::size_of;

#[unsafe(no_mangle)]
pub extern "C" fn frayedbin_read(words: &[u32]) -> RecordAnswer
    ensures { result ≡ read_crossed (read_of words.now) }
{
    RecordAnswer::from(message::read(words))
}

// Fast path: another type is answered from its size alone. Each kind returns by itself: its numbers go straight into the answer,
// and the fast path saves fewer registers.
#[unsafe(no_mangle)]
#[tactic(auto, unfolding(laws::specs::Lists::each, kinds::specs::Layout::layout, records::specs::Records::first_part, records::specs::Records::fields_in, records::specs::Records::lookup, kinds::specs::Fields::same, kinds::specs::Fields::decided))]
pub extern "C" fn frayedbin_walk(words: &[u32], position: usize) -> WalkAnswer
    ensures { result ≡ walk_crossed (walk_of words.now position) }
{
    if let Some(size) = other_size(words, WordNumber(position)) {
        return WalkAnswer::other(type_of(words[position]) as u32, size.0, position + size.0);
    }
    match walking::walk(&words[0..], WordNumber(position)) {
        Walked::End => return WalkAnswer::end(),
        Walked::Other {
            ump_type,
            size,
            next,
        } => return WalkAnswer::other(ump_type, size.0, next.0),
        Walked::Refused { refusal, next } => return WalkAnswer::refused(refusal, next.0),
        Walked::Message { message, next } => match message {
            Message::EndpointDiscovery(e) => return WalkAnswer::found(
                of_endpoint_discovery(e),
                next.0,
            ),
            Message::EndpointInfo(e) => return WalkAnswer::found(of_endpoint_info(e), next.0),
            Message::DeviceIdentity(e) => return WalkAnswer::found(of_device_identity(e), next.0),
            Message::EndpointName(n) => return WalkAnswer::found(
                of_text(Kind::EndpointName, n.0, 0),
                next.0,
            ),
            Message::ProductInstanceId(n) => return WalkAnswer::found(
                of_text(Kind::ProductInstanceId, n.0, 0),
                next.0,
            ),
            Message::FunctionBlockInfo(e) => return WalkAnswer::found(
                of_function_block_info(e),
                next.0,
            ),
            Message::FunctionBlockName {
                function_block,
                packets,
            } => return WalkAnswer::found(
                of_text(Kind::FunctionBlockName, packets.0, function_block as u32),
                next.0,
            ),
        },
    }
}

// A caller who gives a whole word in place of its type gets 0, not four.
#[unsafe(no_mangle)]
#[tactic(auto, unfolding(standard::specs::Walk::size_of))]
pub extern "C" fn frayedbin_words_of_type(ump_type: u32) -> usize
    ensures { result ≡ words_of_type ump_type }
{
    if ump_type < 16 {
        return size_of(ump_type).0;
    }
    0
}

#[unsafe(no_mangle)]
pub extern "C" fn frayedbin_packet(words: &[u32]) -> PacketAnswer
    ensures { result ≡ packet_crossed (packet_of words.now) }
{
    PacketAnswer::from(packet::packet(words))
}

#[unsafe(no_mangle)]
pub extern "C" fn frayedbin_message_size(words: &[u32]) -> SizeAnswer
    ensures { result ≡ size_crossed (message_size words.now) }
{
    SizeAnswer::from(packet::message_size(words))
}

// The text byte at a place or after it, and the place to go on from.
#[unsafe(no_mangle)]
pub extern "C" fn frayedbin_next_byte(
    words: &[u32],
    packet: usize,
    byte_number: usize,
) -> StepAnswer
    ensures { result ≡ step_crossed (next_byte words.now (place_at packet byte_number)) }
{
    let place = TextPlace {
        packet: PacketNumber(packet),
        byte: TextByteNumber(byte_number),
    };
    StepAnswer::from(by_byte::next_byte(words, place))
}

// The whole text of one message. It reads by `frayedbin_read`: a second caller of `read` would keep the compiler from inlining that.
#[unsafe(no_mangle)]
pub extern "C" fn frayedbin_text(words: &[u32], out: &mut [u8]) -> TextAnswer
    ensures answer { result ≡ copy_crossed (copy_on words.now out.old).answer }
    ensures bytes { out.new ≡ (copy_on words.now out.old).bytes }
{
    let read = frayedbin_read(words);
    if read.refusal != 0 {
        return TextAnswer {
            refusal: read.refusal,
            place: read.place,
            length: 0,
        };
    }
    match kind_of(read.numbers.status) {
        Some(kind) => TextAnswer::from(copy_kind(kind, words, out)),
        None => TextAnswer::from(Err(NotCopied::Refused(Refusal::UnknownStatus))),
    }
}

#[unsafe(no_mangle)]
pub extern "C" fn frayedbin_fresh(words: &mut [u32], status: u32) -> Answered
    ensures answer { result ≡ answered (fresh_on status words.old).answer }
    ensures buffer { words.new ≡ (fresh_on status words.old).words }
{
    Answered::from(writing::fresh::fresh(words, status))
}

#[unsafe(no_mangle)]
pub extern "C" fn frayedbin_record_fresh(status: u32) -> RecordAnswer
    ensures { result ≡ fresh_in status }
{
    match kind_of(status) {
        Some(kind) => RecordAnswer::fresh(kind),
        None => RecordAnswer::refused(Refusal::UnknownStatus, no_numbers()),
    }
}

#[unsafe(no_mangle)]
pub extern "C" fn frayedbin_write(words: &mut [u32], record: Numbers) -> Answered
    ensures answer { result ≡ answered (write_in «record» words.old).answer }
    ensures buffer { words.new ≡ (write_in «record» words.old).words }
{
    match fixed_record(record) {
        Ok(message) => Answered::from(writing::write::write(words, message)),
        Err(refusal) => Answered::from(refusal),
    }
}

// The listing of a capture, and how many bytes it took. A buffer of listing::LISTING_ROOM bytes holds any.
#[unsafe(no_mangle)]
pub extern "C" fn frayedbin_list(bytes: &[u8], out: &mut [u8]) -> usize
    ensures { Listed bytes.now out.old result out.new }
{
    listing::list(bytes, out)
}
