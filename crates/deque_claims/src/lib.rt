// What is promised of DFDeques (N13), for a visitor: theorems alone, from the functions' own promises (proofs/ByValue, FromC, Opened, Limits). No crate depends on this one.
#![tactic(auto)]
