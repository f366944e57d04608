// No code: this crate has what a table and any index say, in specs/, and its laws, in proofs/.
#![tactic(auto)]
