// The terms of demand 3 over a run's entries, and what follows of them for every method: this crate has definitions and proofs, and no code.
#![tactic(auto)]
