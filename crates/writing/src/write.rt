// A record of a fixed kind written into a buffer: the fresh message with its fields.
ghost use Rattle.std.specs.Prelude.{◌≡◌};
ghost use Rattle.standard.specs.Words.{write_on};
ghost use Rattle.writing.specs.Put.{put_record};

use buffer::packets::clear;
use kinds::refusal::Refusal;
use numbers::in_slots::{numbers_in_range, put_slots};
use numbers::of_record::numbers_of;
use records::message::{Message, kind_in};
use table::rows::{head_of, row_of};

// Every whole packet zero, then the head and the fields.
#[tactic(auto, using(crate::proofs::Cases::put_own))]
fn put_record(words: &mut [u32], message: Message)
    ensures { words.new ≡ put_record message words.old }
{
    let kind = kind_in(message);
    clear(words, head_of(kind));
    put_slots(words, kind, numbers_of(message));
}

// Refusals 13 for a text kind, 12, 14.
#[tactic(auto, unfolding(standard::specs::Words::write_on), using(numbers::proofs::Accepted::text_row, numbers::proofs::Back::own_fits, crate::proofs::Cases::encoded))]
pub fn write(words: &mut [u32], message: Message) -> Result<(), Refusal>
    ensures answer { result ≡ (write_on message words.old).answer }
    ensures buffer { words.new ≡ (write_on message words.old).words }
{
    let kind = kind_in(message);
    if 1 < row_of(kind).most_packets {
        return Err(Refusal::NoSuchField);
    }
    if !numbers_in_range(kind, numbers_of(message)) {
        return Err(Refusal::NumberTooLarge);
    }
    if words.len() < 4 {
        return Err(Refusal::NoRoom);
    }
    put_record(words, message);
    Ok(())
}
