// What each kind of call answers. specs/Answers.antt has the document's numbers of each case.
ghost use Rattle.std.specs.Prelude.{◌≡◌};
ghost use Rattle.records.specs.Settings.{edited, followed};

use crate::message::Message;
use counts::WordNumber;
use kinds::refusal::Refusal;

// Walking to a word position. Each answer but the end carries the next position.
#[derive(Clone, Copy)]
pub enum Walked {
    End,
    Other {
        ump_type: u32,
        size: WordNumber,
        next: WordNumber,
    },
    Message {
        message: Message,
        next: WordNumber,
    },
    Refused {
        refusal: Refusal,
        next: WordNumber,
    },
}

// A setting on a record: the record handed back, and the answer.
#[derive(Clone, Copy)]
pub struct Edited {
    pub message: Message,
    pub answer: Result<(), Refusal>,
}

impl Edited {
    // An accepted setting.
    pub(crate) fn done(message: Message) -> Edited
        ensures { result ≡ edited message (Ok tt) }
    {
        Edited {
            message,
            answer: Ok(()),
        }
    }

    // A refused setting hands the record back unchanged.
    pub(crate) fn refused(message: Message, refusal: Refusal) -> Edited
        ensures { result ≡ edited message (Err refusal) }
    {
        Edited {
            message,
            answer: Err(refusal),
        }
    }

    pub(crate) fn no_such_field(message: Message) -> Edited
        ensures { result ≡ edited message (Err Refusal.NoSuchField) }
    {
        Edited::refused(message, Refusal::NoSuchField)
    }

    pub(crate) fn too_large(message: Message) -> Edited
        ensures { result ≡ edited message (Err Refusal.NumberTooLarge) }
    {
        Edited::refused(message, Refusal::NumberTooLarge)
    }

    // Two settings in a row: the record of the second, and the first refusal.
    #[tactic(auto, unfolding(crate::specs::Settings::followed))]
    pub(crate) fn then(self, next: Edited) -> Edited
        ensures { result ≡ followed self next }
    {
        Edited {
            message: next.message,
            answer: self.answer.and(next.answer),
        }
    }
}
