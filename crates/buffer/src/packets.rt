// Clearing the whole packets of a buffer.
ghost use Rattle.std.specs.Prelude.{◌≡◌, ◌≤◌};
ghost use Rattle.counts.specs.Counts.{first_word, whole_packets};
ghost use Rattle.text.specs.Written.{whole_words, blank};
ghost use Rattle.buffer.specs.Acts.{clear_from};

use counts::WordNumber;

// The word after the last whole packet: both formulas in one, which no number wraps.
fn end_of_packets(words: WordNumber) -> WordNumber
    ensures { result ≡ first_word (whole_packets words) }
{
    WordNumber(words.0 / 4 * 4)
}

// Clears every word from word `from` on, up to the end of the last whole packet. LLVM makes the loop one `memset`; `fill` writes its last word on its own.
#[tactic(auto, unfolding(crate::specs::Acts::clear_from))]
pub(crate) fn clear_from(words: &mut [u32], from: WordNumber)
    requires { from.0 ≤ whole_words words.old }
    ensures { words.new ≡ clear_from from.0 words.old }
{
    let end = end_of_packets(WordNumber(words.len()));
    for k in from.0..end.0 {
        words[k] = 0;
    }
}

// Clears every whole packet, and puts the head into the first.
#[tactic(auto, using(crate::proofs::Turns::blank_none, crate::proofs::Turns::blank_cleared))]
pub fn clear(words: &mut [u32], head: u32)
    ensures { words.new ≡ blank head words.old }
{
    if words.len() < 4 {
        return;
    }
    words[0] = head;
    clear_from(words, WordNumber(1));
}
