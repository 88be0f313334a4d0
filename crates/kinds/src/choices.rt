// The named choices of a function block and the format of a packet, with their codes.
ghost use Rattle.std.specs.Prelude.{◌≡◌};
ghost use Rattle.kinds.specs.Choices.{hint_code, hint_of, hint_from_code, port_code, port_of, port_from_code, direction_code, direction_of, direction_from_code, format_code};

#[derive(Clone, Copy)]
pub enum UiHint {
    Undeclared,
    Receiver,
    Sender,
    SenderReceiver,
}

// No port is a choice like the others, and no `Option`: document 01 has it among the cases.
#[derive(Clone, Copy)]
pub enum Midi1Port {
    None,
    DontRestrictBandwidth,
    RestrictBandwidth,
}

#[derive(Clone, Copy)]
pub enum Direction {
    Input,
    Output,
    Bidirectional,
}

#[derive(Clone, Copy)]
pub enum Format {
    Complete,
    Start,
    Continue,
    End,
}

// A code that names no choice.
#[derive(Clone, Copy)]
pub struct NoChoice;

impl From<UiHint> for u32 {
    ghost from_gives = { λ hint code. code ≡ hint_code hint };

    fn from(hint: UiHint) -> u32 {
        match hint {
            UiHint::Undeclared => 0,
            UiHint::Receiver => 1,
            UiHint::Sender => 2,
            UiHint::SenderReceiver => 3,
        }
    }
}

impl From<Midi1Port> for u32 {
    ghost from_gives = { λ port code. code ≡ port_code port };

    fn from(port: Midi1Port) -> u32 {
        match port {
            Midi1Port::None => 0,
            Midi1Port::DontRestrictBandwidth => 1,
            Midi1Port::RestrictBandwidth => 2,
        }
    }
}

impl From<Direction> for u32 {
    ghost from_gives = { λ direction code. code ≡ direction_code direction };

    fn from(direction: Direction) -> u32 {
        match direction {
            Direction::Input => 1,
            Direction::Output => 2,
            Direction::Bidirectional => 3,
        }
    }
}

impl From<Format> for u32 {
    ghost from_gives = { λ format code. code ≡ format_code format };

    fn from(format: Format) -> u32 {
        match format {
            Format::Complete => 0,
            Format::Start => 1,
            Format::Continue => 2,
            Format::End => 3,
        }
    }
}

impl TryFrom<u32> for UiHint {
    type Error = NoChoice;

    ghost try_from_gives = { λ code choice. choice ≡ hint_from_code code };

    fn try_from(code: u32) -> Result<UiHint, NoChoice> {
        match code {
            0 => Ok(UiHint::Undeclared),
            1 => Ok(UiHint::Receiver),
            2 => Ok(UiHint::Sender),
            3 => Ok(UiHint::SenderReceiver),
            _ => Err(NoChoice),
        }
    }
}

impl TryFrom<u32> for Midi1Port {
    type Error = NoChoice;

    ghost try_from_gives = { λ code choice. choice ≡ port_from_code code };

    fn try_from(code: u32) -> Result<Midi1Port, NoChoice> {
        match code {
            0 => Ok(Midi1Port::None),
            1 => Ok(Midi1Port::DontRestrictBandwidth),
            2 => Ok(Midi1Port::RestrictBandwidth),
            _ => Err(NoChoice),
        }
    }
}

impl TryFrom<u32> for Direction {
    type Error = NoChoice;

    ghost try_from_gives = { λ code choice. choice ≡ direction_from_code code };

    fn try_from(code: u32) -> Result<Direction, NoChoice> {
        match code {
            1 => Ok(Direction::Input),
            2 => Ok(Direction::Output),
            3 => Ok(Direction::Bidirectional),
            _ => Err(NoChoice),
        }
    }
}

// Helpers of the crates that make records: the choice of a valid code. Callers have refused every other code (port 3, direction 0, any above 3); here it gives the last choice.

pub fn hint_of_valid_code(code: u8) -> UiHint
    ensures { result ≡ hint_of code }
{
    UiHint::try_from(u32::from(code)).unwrap_or(UiHint::SenderReceiver)
}

pub fn port_of_valid_code(code: u8) -> Midi1Port
    ensures { result ≡ port_of code }
{
    Midi1Port::try_from(u32::from(code)).unwrap_or(Midi1Port::RestrictBandwidth)
}

pub fn direction_of_valid_code(code: u8) -> Direction
    ensures { result ≡ direction_of code }
{
    Direction::try_from(u32::from(code)).unwrap_or(Direction::Bidirectional)
}
