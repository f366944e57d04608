// No code: this crate is the definitions that every promise cites, in specs/.
#![tactic(auto)]
