// Walks a stream of words: what stands at a position (the end, another type, a message or a refusal), and where the next one starts.
#![tactic(auto)]

pub mod helpers;

ghost use Rattle.std.specs.Prelude.{◌≡◌, ◌<◌, length};
ghost use Rattle.counts.specs.Counts.{word};
ghost use Rattle.standard.specs.Walk.{size_of, step_of, frame_of, walked_of, framed_of, other_of, walk_of};

use counts::{PacketNumber, WordNumber, first_word};
use kinds::refusal::Refusal;
use reading::heads::{format_of, status_of, type_of};
use reading::helpers::read_framed;
use records::answers::Walked;
use records::message::Message;
use standard::{Framed, Step};

// The words of a packet of each type, 0 to F in order, as M2-104-UM lists them. Bytes, since the compiler copies the table to the stack at each use.
const SIZES: [u8; 16] = [1, 1, 1, 2, 2, 4, 1, 1, 2, 2, 2, 3, 3, 4, 4, 4];

// The number of words in a message of this type, as a plain number: with the struct LLVM writes every answer of the walk in pieces, and a walk of messages takes a tenth longer.
#[tactic(auto, unfolding(standard::specs::Walk::size_of))]
fn plain_size(ump_type: u32) -> usize
    ensures { result ≡ size_of ump_type }
{
    if ump_type < 16 {
        return SIZES[ump_type as usize] as usize;
    }
    // A number above 15 is no type; it is given four words.
    4
}

// The number of words in a message of this type.
pub fn size_of(ump_type: u32) -> WordNumber
    ensures { result ≡ word (size_of ump_type) }
{
    WordNumber(plain_size(ump_type))
}

// What a packet's format means: a first packet must be Complete or Start, a later one Continue or End.
#[tactic(auto, unfolding(standard::specs::Walk::step_of))]
fn step_of(p: usize, format: u8) -> Step
    ensures { result ≡ step_of p format }
{
    if p == 0 {
        return match format {
            0 => Step::Ends,
            1 => Step::Goes,
            _ => Step::Wrong,
        };
    }
    match format {
        3 => Step::Ends,
        2 => Step::Goes,
        _ => Step::Wrong,
    }
}

// Here and below `pos` is within the words, as `walk` has seen: a type for both would serve three private functions alone.
// Counts the packets of the message at `pos` and checks their heads. If 64 packets do not end it there are too many, even with no words left.
#[tactic(auto, unfolding(standard::specs::Walk::frame_of))]
fn frame(words: &[u32], pos: usize) -> Framed
    requires { pos < length words.now }
    ensures { result ≡ frame_of words.now pos }
{
    let status = status_of(words[pos]);
    for p in 0..64 {
        // The first word of packet p, by the bare formula: the p packets before it are among the words, so nothing wraps.
        let at = pos + p * 4;
        if words.len() - at < 4 {
            return Framed::Short;
        }
        let w = words[at];
        if type_of(w) != 15 {
            return Framed::Broken(Refusal::WrongType(PacketNumber(p)));
        }
        if status_of(w) != status {
            return Framed::Broken(Refusal::StatusDiffers(PacketNumber(p)));
        }
        match step_of(p, format_of(w)) {
            Step::Ends => return Framed::Whole(PacketNumber(p + 1)),
            Step::Goes => {}
            Step::Wrong => return Framed::Broken(Refusal::WrongFormat(PacketNumber(p))),
        }
    }
    Framed::Broken(Refusal::TooManyPackets)
}

// A message of another type, or refusal 1 if some of its words are missing.
#[tactic(auto, unfolding(standard::specs::Walk::other_of))]
fn walk_other(ump_type: u32, words: &[u32], pos: usize) -> Walked
    requires { pos < length words.now }
    ensures { result ≡ other_of ump_type words.now pos }
{
    let size = plain_size(ump_type);
    if words.len() - pos < size {
        return Walked::Refused {
            refusal: Refusal::TooFewWords,
            next: WordNumber(words.len()),
        };
    }
    Walked::Other {
        ump_type,
        size: WordNumber(size),
        next: WordNumber(pos + size),
    }
}

// What was read, with the position after it.
fn walk_read(read: Result<Message, Refusal>, next: usize) -> Walked
    ensures { result ≡ walked_of read next }
{
    match read {
        Ok(message) => Walked::Message {
            message,
            next: WordNumber(next),
        },
        Err(refusal) => Walked::Refused {
            refusal,
            next: WordNumber(next),
        },
    }
}

// A stream message: framed, then read without checking its heads again. After refusal 1 the next position is the length, after another framing refusal four words on.
#[tactic(auto, unfolding(standard::specs::Walk::framed_of))]
fn walk_framed(words: &[u32], pos: usize) -> Walked
    requires { pos < length words.now }
    ensures { result ≡ framed_of (frame_of words.now pos) words.now pos }
{
    match frame(words, pos) {
        Framed::Short => Walked::Refused {
            refusal: Refusal::TooFewWords,
            next: WordNumber(words.len()),
        },
        Framed::Broken(refusal) => Walked::Refused {
            refusal,
            next: WordNumber(pos + 4),
        },
        Framed::Whole(n) => {
            let after = pos + first_word(n).0;
            walk_read(read_framed(&words[pos..after]), after)
        }
    }
}

// What stands at a word position of a stream, and the next position.
#[tactic(auto, unfolding(standard::specs::Walk::walk_of))]
pub fn walk(words: &[u32], position: WordNumber) -> Walked
    ensures { result ≡ walk_of words.now position.0 }
{
    let pos = position.0;
    if words.len() <= pos {
        return Walked::End;
    }
    let ump_type = type_of(words[pos]) as u32;
    if ump_type != 15 {
        return walk_other(ump_type, words, pos);
    }
    walk_framed(words, pos)
}
