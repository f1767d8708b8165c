// Integers, extended values and biased words: definitions and laws only.
#![tactic(auto)]
