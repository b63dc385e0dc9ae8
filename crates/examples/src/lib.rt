// P1 to P12 of document 01 as one table (specs/Table) under one joint theorem (proofs/Joint).
#![tactic(auto)]
