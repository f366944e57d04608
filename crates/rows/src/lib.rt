// The rows of a table of information elements: their columns, and the place of an IEI by an index.
#![tactic(auto)]

pub mod columns;
pub mod index;
pub mod lent;
