// What is promised, for a visitor: theorems alone, from the functions' own promises (proofs/ByValue, FromC, Opened, Board, Rounds). No crate depends on this one.
#![tactic(auto)]
