// Demand 3 of both methods, and its proof of CC-Synch, on the definitions: no code.
#![tactic(auto)]
