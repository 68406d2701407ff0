// The definitions of document 01 stand in specs/, the laws of single calls in proofs/; this crate has no code.
#![tactic(auto)]
