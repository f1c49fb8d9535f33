// The invariant behind the claims of DSM-Synch, stated and proved on the definitions of the machine: no code.
#![tactic(auto)]
