// The claim about every list of calls after an accepted load: definitions and proofs only.
#![tactic(auto)]
