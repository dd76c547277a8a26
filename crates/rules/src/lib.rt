// Document 01 as definitions, in specs/, and what follows from them, in proofs/. This crate has no code.
#![tactic(auto)]
