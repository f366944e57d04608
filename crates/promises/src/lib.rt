// No code: this crate proves what the definitions promise, in specs/ and proofs/.
#![tactic(auto)]
