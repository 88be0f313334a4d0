// Settings of text on the message at the start of any slice of words, one file per kind.
#![tactic(auto)]

pub mod endpoint_name;
pub mod function_block_name;
pub mod product_instance_id;
mod target;
mod texts;
