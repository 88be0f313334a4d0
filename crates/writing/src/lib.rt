// A fresh message of any kind, and a record of a fixed kind, written into any lent slice of words.
#![tactic(auto)]

pub mod fresh;
pub mod write;
