// Status 0x12: the name of a function block. Its record is in the message itself: the block's number and the packets.
ghost use Rattle.std.specs.Prelude.{◌≡◌};
ghost use Rattle.kinds.specs.Fields.{Number, Setting};
ghost use Rattle.records.specs.Settings.{set_record, set_edited};

use crate::answers::Edited;
use crate::message::Message;

// Settings on a record.
#[tactic(auto, unfolding(crate::proofs::Methods::setting), using(crate::proofs::Methods::other_block_name))]
impl Message {
    pub fn set_function_block(mut self, number: u32) -> Edited
        ensures { result ≡ set_record (Setting.number Number.function_block number) self }
    {
        let Message::FunctionBlockName { function_block, .. } = &mut self else {
            return Edited::no_such_field(self);
        };
        if number > 255 {
            return Edited::too_large(self);
        }
        *function_block = number as u8;
        Edited::done(self)
    }
}

// The same settings on the result of a setting, for chains.
impl Edited {
    pub fn set_function_block(self, number: u32) -> Edited
        ensures { result ≡ set_edited (Setting.number Number.function_block number) self }
    {
        self.then(self.message.set_function_block(number))
    }
}
