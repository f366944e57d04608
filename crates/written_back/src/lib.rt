// No code: this crate proves what the contracts of reading and writing say together, in proofs/.
#![tactic(auto)]
