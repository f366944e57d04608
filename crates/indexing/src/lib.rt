// Entering the IEIs of rows in an index, for the check of a table and for its index.
#![tactic(auto)]

pub mod index;
pub mod marks;
