// Settings on the message at the start of any slice of words: flags, numbers and pairs by name, choices, fields of several numbers.
#![tactic(auto)]

pub mod choices;
pub mod device_identity;
mod fixed;
pub mod helpers;
pub mod named;
