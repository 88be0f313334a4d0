// THE TABLE in code, said once: a row for each kind, a place for each slot, a name for each field.
// specs/ says what each must be by kinds/specs/Layout.antt; all other code asks here.
#![tactic(auto)]

pub mod names;
pub mod places;
pub mod rows;
