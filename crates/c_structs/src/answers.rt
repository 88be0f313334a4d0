// Answers as structs of numbers, as C takes them: a refusal's number is 0 where nothing was refused.
ghost use Rattle.std.specs.Prelude.{◌≡◌, Err};
ghost use Rattle.counts.specs.Counts.{word};
ghost use Rattle.kinds.specs.Fields.{start};
ghost use Rattle.records.specs.Records.{record_of};
ghost use Rattle.numbers.specs.Numbers.{as_numbers};
ghost use Rattle.records.specs.declared.answers.Walked.TheVariants as W;
ghost use Rattle.c_structs.specs.Crossed.{answered, with_numbers, with_refusal, read_crossed, found_crossed, walk_crossed, packet_crossed, size_crossed, copy_crossed, step_crossed, set_crossed};

use counts::{TextByteNumber, WordNumber};
use kinds::kind::Kind;
use kinds::refusal::Refusal;
use numbers::Numbers;
use numbers::of_record::{no_numbers, numbers_of, of_text};
use numbers::set_one::with_number;
use reading::packet;
use records::answers::Edited;
use records::message::Message;
use records::packet::Packet;
use text::Stepped;
use text_copy::NotCopied;

#[repr(C)]
#[derive(Clone, Copy)]
pub struct Answered {
    pub refusal: u32,
    pub place: usize,
}

#[repr(C)]
#[derive(Clone, Copy)]
pub struct RecordAnswer {
    pub refusal: u32,
    pub place: usize,
    pub numbers: Numbers,
}

// 0 the end, 1 another type, 2 a message, 3 a refusal.
#[repr(C)]
#[derive(Clone, Copy)]
pub struct WalkAnswer {
    pub found: u32,
    pub refusal: u32,
    pub place: usize,
    pub ump_type: u32,
    pub size: usize,
    pub next: usize,
    pub numbers: Numbers,
}

#[repr(C)]
#[derive(Clone, Copy)]
pub struct PacketAnswer {
    pub refusal: u32,
    pub place: usize,
    pub format: u32,
    pub first: u32,
    pub second: u32,
    pub third: u32,
    pub fourth: u32,
}

#[repr(C)]
#[derive(Clone, Copy)]
pub struct SizeAnswer {
    pub refusal: u32,
    pub place: usize,
    pub words: usize,
}

// The length of a text, also where there is no room for it.
#[repr(C)]
#[derive(Clone, Copy)]
pub struct TextAnswer {
    pub refusal: u32,
    pub place: usize,
    pub length: usize,
}

// The byte, 0 at the end, and the place after it.
#[repr(C)]
#[derive(Clone, Copy)]
pub struct StepAnswer {
    pub byte: u32,
    pub packet: usize,
    pub byte_number: usize,
}

impl From<Refusal> for Answered {
    ghost from_gives = { λ refusal a. a ≡ answered (Err refusal) };

    fn from(refusal: Refusal) -> Answered {
        Answered {
            refusal: refusal.number(),
            place: refusal.place(),
        }
    }
}

impl From<Result<(), Refusal>> for Answered {
    ghost from_gives = { λ answer a. a ≡ answered answer };

    fn from(answer: Result<(), Refusal>) -> Answered {
        match answer {
            Ok(()) => Answered {
                refusal: 0,
                place: 0,
            },
            Err(refusal) => Answered::from(refusal),
        }
    }
}

impl RecordAnswer {
    // A refused call hands the record back unchanged.
    pub fn refused(refusal: Refusal, numbers: Numbers) -> RecordAnswer
        ensures { result ≡ with_refusal refusal numbers }
    {
        RecordAnswer {
            refusal: refusal.number(),
            place: refusal.place(),
            numbers,
        }
    }

    // A record that a setting gives.
    pub fn accepted(numbers: Numbers) -> RecordAnswer
        ensures { result ≡ with_numbers numbers }
    {
        RecordAnswer {
            refusal: 0,
            place: 0,
            numbers,
        }
    }

    // The record of a fresh message: all numbers are 0 but a block info's direction.
    pub fn fresh(kind: Kind) -> RecordAnswer
        ensures { result ≡ with_numbers (as_numbers (record_of kind 1 start)) }
    {
        let numbers = of_text(kind, 1, 0);
        let Kind::FunctionBlockInfo = kind else {
            return RecordAnswer::accepted(numbers);
        };
        RecordAnswer::accepted(with_number(numbers, 9, 4, 3))
    }

    // The answer of a setting on a record that came as these numbers, if they are one.
    pub fn edited(edited: Result<Edited, Refusal>, numbers: Numbers) -> RecordAnswer
        ensures { result ≡ set_crossed edited numbers }
    {
        match edited {
            Ok(
                Edited {
                    message,
                    answer: Ok(()),
                },
            ) => RecordAnswer::accepted(numbers_of(message)),
            Ok(
                Edited {
                    answer: Err(refusal),
                    ..
                },
            )
            | Err(refusal) => RecordAnswer::refused(refusal, numbers),
        }
    }
}

impl From<Result<Message, Refusal>> for RecordAnswer {
    ghost from_gives = { λ read a. a ≡ read_crossed read };

    fn from(read: Result<Message, Refusal>) -> RecordAnswer {
        match read {
            Ok(message) => RecordAnswer::accepted(numbers_of(message)),
            Err(refusal) => RecordAnswer::refused(refusal, no_numbers()),
        }
    }
}

// The walk's answers, a function for each: frayedbin_walk fills the struct in the case at hand.
impl WalkAnswer {
    pub fn end() -> WalkAnswer
        ensures { result ≡ walk_crossed W.End }
    {
        WalkAnswer {
            found: 0,
            refusal: 0,
            place: 0,
            ump_type: 0,
            size: 0,
            next: 0,
            numbers: no_numbers(),
        }
    }

    pub fn other(ump_type: u32, size: usize, next: usize) -> WalkAnswer
        ensures { result ≡ walk_crossed (W.Other ump_type (word size) (word next)) }
    {
        WalkAnswer {
            found: 1,
            ump_type,
            size,
            next,
            ..WalkAnswer::end()
        }
    }

    // A message, whose numbers the functions of `numbers` give.
    pub fn found(numbers: Numbers, next: usize) -> WalkAnswer
        ensures { result ≡ found_crossed numbers next }
    {
        WalkAnswer {
            found: 2,
            next,
            numbers,
            ..WalkAnswer::end()
        }
    }

    pub fn refused(refusal: Refusal, next: usize) -> WalkAnswer
        ensures { result ≡ walk_crossed (W.Refused refusal (word next)) }
    {
        WalkAnswer {
            found: 3,
            refusal: refusal.number(),
            place: refusal.place(),
            next,
            ..WalkAnswer::end()
        }
    }
}

impl From<Result<Packet, Refusal>> for PacketAnswer {
    ghost from_gives = { λ read a. a ≡ packet_crossed read };

    fn from(read: Result<Packet, Refusal>) -> PacketAnswer {
        match read {
            Ok(p) => PacketAnswer {
                refusal: 0,
                place: 0,
                format: u32::from(packet::format(p)),
                first: p.0,
                second: p.1,
                third: p.2,
                fourth: p.3,
            },
            Err(refusal) => PacketAnswer {
                refusal: refusal.number(),
                place: refusal.place(),
                format: 0,
                first: 0,
                second: 0,
                third: 0,
                fourth: 0,
            },
        }
    }
}

impl From<Result<WordNumber, Refusal>> for SizeAnswer {
    ghost from_gives = { λ size a. a ≡ size_crossed size };

    fn from(size: Result<WordNumber, Refusal>) -> SizeAnswer {
        match size {
            Ok(n) => SizeAnswer {
                refusal: 0,
                place: 0,
                words: n.0,
            },
            Err(refusal) => SizeAnswer {
                refusal: refusal.number(),
                place: refusal.place(),
                words: 0,
            },
        }
    }
}

impl From<Result<TextByteNumber, NotCopied>> for TextAnswer {
    ghost from_gives = { λ copy a. a ≡ copy_crossed copy };

    fn from(copy: Result<TextByteNumber, NotCopied>) -> TextAnswer {
        match copy {
            Ok(n) => TextAnswer {
                refusal: 0,
                place: 0,
                length: n.0,
            },
            Err(NotCopied::NoRoom(n)) => TextAnswer {
                refusal: Refusal::NoRoom.number(),
                place: Refusal::NoRoom.place(),
                length: n.0,
            },
            Err(NotCopied::Refused(refusal)) => TextAnswer {
                refusal: refusal.number(),
                place: refusal.place(),
                length: 0,
            },
        }
    }
}

impl From<Stepped> for StepAnswer {
    ghost from_gives = { λ stepped a. a ≡ step_crossed stepped };

    fn from(stepped: Stepped) -> StepAnswer {
        StepAnswer {
            byte: u32::from(stepped.step.unwrap_or(0)),
            packet: stepped.place.packet.0,
            byte_number: stepped.place.byte.0,
        }
    }
}
