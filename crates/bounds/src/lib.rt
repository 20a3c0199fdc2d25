// The limits on rows of turns: memory held, and threads in the list. Theorems alone (proofs/Limit, proofs/PeakLimit, proofs/ThreadLimit), no code.
#![tactic(auto)]
