// A board whose power was cut can be loaded again (document 02, Eleven): definitions (specs) and theorems (proofs), no code.
#![tactic(auto)]
