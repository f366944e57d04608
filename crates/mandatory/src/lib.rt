// Mandatory rows: reading them one after the other, by a lent table or by its number.
#![tactic(auto)]

pub mod by;
pub mod decode;
pub mod notes;
