// How a check's answer tells of a proposition, and tests over the numbers below one: definitions and laws only.
#![tactic(auto)]
