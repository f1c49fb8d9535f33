// The claims of DSM-Synch, proved on the definitions: this crate has runs by computation and proofs, and no code.
#![tactic(auto)]
