// Writing an optional part that is measured first: its octets from the place rows, the received and the set octets, and the two logs.
#![tactic(auto)]

pub mod encode;
pub mod sizes;
