// Demands 1 and 3 stand in specs/ and their proofs in proofs/. This crate has no code.
#![tactic(auto)]
