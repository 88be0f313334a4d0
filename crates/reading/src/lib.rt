// Reads from any slice of words: a packet, one message, and text a byte at a time. The reading half of src/ump_stream.rs of the Rust.
#![tactic(auto)]

pub mod by_byte;
mod from_words;
pub mod heads;
pub mod helpers;
pub mod message;
mod one_pass;
pub mod packet;
mod rules;
