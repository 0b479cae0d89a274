// What the calls mean, and every list of them beside the plain store: definitions and proofs alone, over the outcomes that the calls' contracts cite.
#![tactic(auto)]
