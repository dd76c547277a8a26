// What document 01's numbers and docs/CALLS.md's examples come to by the rules, computed,
// and damaged stores for each clause of soundness. This crate has no code.
#![tactic(auto)]
