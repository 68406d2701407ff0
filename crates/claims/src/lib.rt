// Line 3 over whole lists: the claims stand in specs/, their proofs in proofs/. This crate has no code, and no crate of code needs it.
#![tactic(auto)]
