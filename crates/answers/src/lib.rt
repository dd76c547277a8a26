// Specifications and proofs alone: a call on the lent tables, and how it ends.
#![tactic(auto)]
