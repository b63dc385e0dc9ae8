// The four calls over a caller's bytes: what they return and leave (specs) and what follows from it (proofs), no code.
#![tactic(auto)]
