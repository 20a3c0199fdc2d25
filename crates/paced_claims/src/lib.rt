// What a pace promises, for a visitor: theorems alone, from the functions' own promises (proofs/PacedLimit, PacedFromC). No crate depends on this one.
#![tactic(auto)]
