// The book of document 01: definitions and proofs only.
#![tactic(auto)]
