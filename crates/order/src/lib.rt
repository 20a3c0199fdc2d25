// The order of a table's actions: 1DF-numbers, sums along serial order, counting. Definitions and laws on tables and lists alone (specs/, proofs/), no code; nothing here knows a run.
#![tactic(auto)]
