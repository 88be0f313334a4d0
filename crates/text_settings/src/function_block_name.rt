// A function block name, status 0x12, set on words: its block number, octet 2 of word 0 of each packet, and its text, 13 bytes a packet.
ghost use Rattle.std.specs.Prelude.{◌≡◌};
ghost use Rattle.kinds.specs.Fields.{Number, Text, Setting};
ghost use Rattle.standard.specs.Words.{set_on};
ghost use Rattle.text_settings.specs.Texts.{block_head};

use crate::target::find_text_target;
use crate::texts::set_text;
use fields::put_each;
use kinds::kind::Kind;
use kinds::refusal::Refusal;
use table::places::place_of;
use table::rows::head_of;

// The refusals of the target, then 12; else the number goes into each packet of the message and none after.
#[tactic(auto, unfolding(crate::specs::Texts::each_on), using(crate::proofs::Rows::block_put))]
pub fn set_function_block(words: &mut [u32], number: u32) -> Result<(), Refusal>
    ensures answer { result ≡ (set_on (Setting.number Number.function_block number) words.old).answer }
    ensures buffer { words.new ≡ (set_on (Setting.number Number.function_block number) words.old).words }
{
    let packets = find_text_target(words, Kind::FunctionBlockName)?;
    let bits = place_of(Kind::FunctionBlockName, 0).bits;
    if bits.too_large(number) {
        return Err(Refusal::NumberTooLarge);
    }
    put_each(words, packets, bits, number);
    Ok(())
}

// The head of each packet: the block number is the one that the first packet has.
#[tactic(auto, unfolding(kinds::specs::Layout::layout, crate::specs::Texts::block_head))]
fn block_head(words: &[u32]) -> u32
    ensures { result ≡ block_head words.now }
{
    let head = head_of(Kind::FunctionBlockName);
    if words.len() == 0 {
        return head;
    }
    head + words[0] / 0x100 % 0x100 * 0x100
}

#[tactic(auto, unfolding(kinds::specs::Layout::layout), using(crate::proofs::Heads::block_upper, crate::proofs::Rows::block_name_put))]
pub fn set_name(words: &mut [u32], name: &[u8]) -> Result<(), Refusal>
    ensures answer { result ≡ (set_on (Setting.text Text.function_block_name name.now) words.old).answer }
    ensures buffer { words.new ≡ (set_on (Setting.text Text.function_block_name name.now) words.old).words }
{
    let head = block_head(words);
    set_text(words, Kind::FunctionBlockName, head, name)
}
