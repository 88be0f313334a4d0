// Text is not in a record, so each setting of it is refused.
ghost use Rattle.std.specs.Prelude.{◌≡◌};
ghost use Rattle.kinds.specs.Fields.{Setting, Text};
ghost use Rattle.records.specs.Records.{kind_in};
ghost use Rattle.records.specs.Settings.{name_of, set_record, set_edited};

use crate::answers::Edited;
use crate::message::Message;

// Settings on a record.
#[tactic(auto, using(crate::proofs::Promises::text_refused))]
impl Message {
    pub fn set_name(mut self, text: &[u8]) -> Edited
        ensures { result ≡ set_record (Setting.text (name_of (kind_in self)) text.now) self }
    {
        Edited::no_such_field(self)
    }

    pub fn set_id(mut self, text: &[u8]) -> Edited
        ensures { result ≡ set_record (Setting.text Text.product_instance_id text.now) self }
    {
        Edited::no_such_field(self)
    }
}

// The same settings on the result of a setting, for chains.
impl Edited {
    pub fn set_name(self, text: &[u8]) -> Edited
        ensures { result ≡ set_edited (Setting.text (name_of (kind_in self.message)) text.now) self }
    {
        self.then(self.message.set_name(text))
    }

    pub fn set_id(self, text: &[u8]) -> Edited
        ensures { result ≡ set_edited (Setting.text Text.product_instance_id text.now) self }
    {
        self.then(self.message.set_id(text))
    }
}
