// Marks to come back to (N11): definitions and laws on lists of calls with marks in them, no code.
#![tactic(auto)]
