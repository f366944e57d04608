// One element of an optional part, or so many: how long each is, how it came, and where reading is behind it.
#![tactic(auto)]

pub mod element;
pub mod next;
pub mod walk;
