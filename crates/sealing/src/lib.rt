// A board on which step 7's call 0x0D for macro 0 succeeded has the image (document 02, One): definitions (specs) and theorems (proofs), no code.
#![tactic(auto)]
