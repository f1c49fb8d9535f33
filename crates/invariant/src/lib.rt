// The invariant of CC-Synch behind demand 3, and what DSM-Synch's shares with it, stated and proved on the definitions of the machine: no code.
#![tactic(auto)]
