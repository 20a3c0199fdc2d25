// The peak of p workers: definitions on tables and states, and laws; no code. Its limits over lists of calls are in crates/bounds.
#![tactic(auto)]
