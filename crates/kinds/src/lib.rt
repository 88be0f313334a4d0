// What the seven kinds are: their names and choices, and why a call is refused.
// specs/ has the codes and numbers, and the one table of where each field stands.
#![tactic(auto)]

pub mod choices;
pub mod kind;
pub mod refusal;
