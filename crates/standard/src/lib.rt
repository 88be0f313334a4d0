// What the library must do, by M2-104-UM and document 01: definitions and their laws. The code that meets them is in later crates, and shares these two types.
#![tactic(auto)]

use counts::PacketNumber;
use kinds::refusal::Refusal;

// What a packet's format means at its place in a message.
#[derive(Clone, Copy)]
pub enum Step {
    Ends,
    Goes,
    Wrong,
}

// The packets of a message in a stream: how many, or why there is no message. No `Result`: the walk goes on elsewhere after `Short` than after `Broken`.
#[derive(Clone, Copy)]
pub enum Framed {
    Whole(PacketNumber),
    Short,
    Broken(Refusal),
}
