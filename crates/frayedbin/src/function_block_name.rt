// Function block name, status 0x12: settings on words and on a record.
ghost use Rattle.std.specs.Prelude.{◌≡◌};
ghost use Rattle.kinds.specs.Fields.{Number, Text, Setting};
ghost use Rattle.standard.specs.Words.{set_on};
ghost use Rattle.c_structs.specs.Crossed.{answered};
ghost use Rattle.frayedbin.specs.Calls.{set_in};

use c_structs::answers::{Answered, RecordAnswer};
use kinds::kind::Kind;
use numbers::Numbers;
use numbers::to_record::record_of;
use text_settings::function_block_name;

#[unsafe(no_mangle)]
pub extern "C" fn frayedbin_function_block_name_set_function_block(
    words: &mut [u32],
    number: u32,
) -> Answered
    ensures answer { result ≡ answered (set_on (Setting.number Number.function_block number) words.old).answer }
    ensures buffer { words.new ≡ (set_on (Setting.number Number.function_block number) words.old).words }
{
    Answered::from(function_block_name::set_function_block(words, number))
}

#[unsafe(no_mangle)]
pub extern "C" fn frayedbin_function_block_name_set_name(words: &mut [u32], name: &[u8]) -> Answered
    ensures answer { result ≡ answered (set_on (Setting.text Text.function_block_name name.now) words.old).answer }
    ensures buffer { words.new ≡ (set_on (Setting.text Text.function_block_name name.now) words.old).words }
{
    Answered::from(function_block_name::set_name(words, name))
}

// On a record.

#[unsafe(no_mangle)]
pub extern "C" fn frayedbin_record_set_function_block(record: Numbers, number: u32) -> RecordAnswer
    ensures { result ≡ set_in (λ k. Setting.number Number.function_block number) «record» }
{
    let edited = record_of(Kind::FunctionBlockName, record).map(
        |message| message.set_function_block(number),
    );
    RecordAnswer::edited(edited, record)
}
