// Mandatory rows written one after the other, by a lent table or by its number.
#![tactic(auto)]

pub mod by;
pub mod encode;
pub mod row;
