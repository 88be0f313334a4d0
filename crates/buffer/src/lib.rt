// Clearing the packets of a lent buffer, and writing text into them. A change that cannot be made leaves the buffer as it is.
#![tactic(auto)]

pub mod packets;
pub mod texts;
