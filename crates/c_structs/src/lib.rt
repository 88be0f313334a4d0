// Answers as structs of numbers for C and Rust.
#![tactic(auto)]

pub mod answers;
