// A fresh message: every whole packet zero, then type, Complete and status; block info starts with direction 3.
ghost use Rattle.std.specs.Prelude.{◌≡◌};
ghost use Rattle.kinds.specs.Fields.{start};
ghost use Rattle.kinds.specs.Layout.{layout};
ghost use Rattle.standard.specs.Words.{head_of, fresh_on};

use buffer::packets::clear;
use kinds::kind::Kind;
use kinds::refusal::Refusal;
use table::rows::{head_of, kind_of, row_of};

// The first word: type, Complete, status, and the fields that do not start with 0.
#[tactic(auto, using(table::proofs::RowLaws::row_small, crate::proofs::Blank::head_row))]
fn fresh_head(kind: Kind) -> u32
    ensures { result ≡ head_of (layout kind) start 0 }
{
    head_of(kind) + row_of(kind).start
}

// Refusals 5, then 14. By status, which may be no kind's.
#[tactic(auto, unfolding(standard::specs::Words::fresh_on), using(crate::proofs::Blank::fresh_blank))]
pub fn fresh(words: &mut [u32], status: u32) -> Result<(), Refusal>
    ensures answer { result ≡ (fresh_on status words.old).answer }
    ensures buffer { words.new ≡ (fresh_on status words.old).words }
{
    let Some(kind) = kind_of(status) else {
        return Err(Refusal::UnknownStatus);
    };
    if words.len() < 4 {
        return Err(Refusal::NoRoom);
    }
    clear(words, fresh_head(kind));
    Ok(())
}
