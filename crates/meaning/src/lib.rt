// What aggregate sentences mean, how their sets are merged and what is computed of them: definitions and proofs only.
#![tactic(auto)]
