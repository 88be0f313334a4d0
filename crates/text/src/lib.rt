// Text in packets of four words, for any capacity from 1 to 14 bytes: how it is laid out, and how it is read back.
#![tactic(auto)]

pub mod big_endian;
pub mod by_byte;
pub mod packets;

use counts::{PacketNumber, TextByteNumber};

// Where to look for the next text byte: a packet, and a byte of its text.
#[derive(Clone, Copy)]
pub struct TextPlace {
    pub packet: PacketNumber,
    pub byte: TextByteNumber,
}

// A step, and the place after it.
#[derive(Clone, Copy)]
pub struct Stepped {
    pub step: Option<u8>,
    pub place: TextPlace,
}
