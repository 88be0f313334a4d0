// Why a call is refused. A case with a place holds it; specs/Refusals.antt has the document's numbers, docs/REFUSALS.md all of them.
ghost use Rattle.std.specs.Prelude.{◌≡◌};
ghost use Rattle.kinds.specs.Refusals.{refusal_number, refusal_place};

use counts::PacketNumber;

#[derive(Clone, Copy)]
pub enum Refusal {
    TooFewWords,
    NotWholePackets,
    TooManyPackets,
    WrongType(PacketNumber),
    UnknownStatus,
    StatusDiffers(PacketNumber),
    WrongFormat(PacketNumber),
    BlockNumberDiffers(PacketNumber),
    BadPort,
    BadDirection,
    NotUtf8,
    NumberTooLarge,
    NoSuchField,
    NoRoom,
}

impl Refusal {
    // The document's number of a refusal.
    pub fn number(self) -> u32
        ensures { result ≡ refusal_number self }
    {
        match self {
            Refusal::TooFewWords => 1,
            Refusal::NotWholePackets => 2,
            Refusal::TooManyPackets => 3,
            Refusal::WrongType(_) => 4,
            Refusal::UnknownStatus => 5,
            Refusal::StatusDiffers(_) => 6,
            Refusal::WrongFormat(_) => 7,
            Refusal::BlockNumberDiffers(_) => 8,
            Refusal::BadPort => 9,
            Refusal::BadDirection => 10,
            Refusal::NotUtf8 => 11,
            Refusal::NumberTooLarge => 12,
            Refusal::NoSuchField => 13,
            Refusal::NoRoom => 14,
        }
    }

    // The packet that is refused; 0 if the refusal has no place, as document 01 numbers them.
    pub fn place(self) -> usize
        ensures { result ≡ refusal_place self }
    {
        match self {
            Refusal::WrongType(packet)
            | Refusal::StatusDiffers(packet)
            | Refusal::WrongFormat(packet)
            | Refusal::BlockNumberDiffers(packet) => packet.0,
            _ => 0,
        }
    }
}
