// The limits for every order of turns, sharper than those of crates/peaks: definitions on tables and states, and laws; no code.
#![tactic(auto)]
