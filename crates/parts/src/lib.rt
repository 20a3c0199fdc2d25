// A table inside another under other thread numbers: definitions and laws on tables alone (specs/, proofs/), no code; nothing here knows a run.
#![tactic(auto)]
