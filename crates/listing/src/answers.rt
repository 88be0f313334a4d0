// A line for each answer of the walk.
ghost use Rattle.std.specs.Prelude.{◌≡◌};
ghost use Rattle.standard.specs.Walk.{walk_of};
ghost use Rattle.walking.specs.Visits.{next_of};
ghost use Rattle.ascii_lines.specs.Page.{Puts};
ghost use Rattle.listing.specs.Lines.{other_shown, refusal_shown, answer_shown, line_of, end_line};
ghost use Rattle.listing.specs.Listing.{lines_of};

use crate::messages::put_message;
use ascii_lines::Writer;
use counts::WordNumber;
use kinds::refusal::Refusal;
use records::answers::Walked;

fn put_other(writer: &mut Writer, ump_type: u32, size: WordNumber)
    ensures { Puts writer.old (other_shown ump_type size) writer.new }
{
    writer.put_named(b" other", &[ump_type as u64, size.0 as u64]);
}

pub(crate) fn put_refusal(writer: &mut Writer, refusal: Refusal)
    ensures { Puts writer.old (refusal_shown refusal) writer.new }
{
    let ns = [refusal.number() as u64, refusal.place() as u64];
    writer.put_named(b" refused", &ns);
}

// The rest of a line after its position: what the walk found there.
fn put_answer(writer: &mut Writer, words: &[u32], pos: usize, answer: Walked)
    requires { answer ≡ walk_of words.now pos }
    ensures { Puts writer.old (answer_shown answer words.now pos) writer.new }
{
    match answer {
        Walked::End => {}
        Walked::Other { ump_type, size, .. } => put_other(writer, ump_type, size),
        Walked::Message { message, next } => put_message(writer, message, &words[pos..next.0]),
        Walked::Refused { refusal, .. } => put_refusal(writer, refusal),
    }
}

fn put_line(writer: &mut Writer, words: &[u32], pos: usize, answer: Walked)
    requires { answer ≡ walk_of words.now pos }
    ensures { Puts writer.old (line_of answer words.now pos) writer.new }
{
    writer.put_decimal(pos as u64);
    put_answer(writer, words, pos, answer);
    writer.put_byte(b'\n');
}

// The position after an answer.
fn next_of(answer: Walked, pos: usize) -> usize
    ensures { result ≡ next_of answer pos }
{
    match answer {
        Walked::End => pos,
        Walked::Other { next, .. } | Walked::Message { next, .. } | Walked::Refused { next, .. } =>
            next.0,
    }
}

// All lines but the last. The walk is asked once at each position, and says how far to the next: so no `for`.
pub(crate) fn put_lines(writer: &mut Writer, words: &[u32])
    ensures { Puts writer.old (lines_of words.now) writer.new }
{
    let mut pos = 0;
    while pos < words.len() {
        let answer = walking::walk(words, WordNumber(pos));
        put_line(writer, words, pos, answer);
        pos = next_of(answer, pos);
    }
}

// The last line: whole words, leftover bytes.
pub(crate) fn put_end(writer: &mut Writer, words: usize, leftover: usize)
    ensures { Puts writer.old (end_line words leftover) writer.new }
{
    writer.put_named(b"end", &[words as u64, leftover as u64]);
    writer.put_byte(b'\n');
}
