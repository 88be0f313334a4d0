// The records of the seven kinds, the message that is one of them, and what each call answers.
// A field's settings are in its kind's file: refusal 13 if the record's kind lacks the field, then 12.
// Each body is written out and needs no answer: a helper with a closure would need one at each call.
#![tactic(auto)]

pub mod answers;
pub mod device_identity;
pub mod endpoint_discovery;
pub mod endpoint_info;
pub mod function_block_info;
pub mod function_block_name;
pub mod message;
pub mod named;
pub mod packet;
pub mod texts;
pub mod ump_version;
