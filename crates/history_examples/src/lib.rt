// Lists of calls from accepted loads, whole and with refused calls among them: definitions and proofs only.
#![tactic(auto)]
