// The value of a place: where its row says it is, and whether it fits its form; the checks before it is touched; showing it.
#![tactic(auto)]

pub mod check;
pub mod row;
pub mod show;
