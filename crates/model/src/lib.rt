// The plain store, its programs and what they mean: definitions and proofs alone, which the contracts of all crates above cite.
#![tactic(auto)]
