// What the output of the OPB program is worth: it fits the page, it is the same for every judgement of the sentences, and worked outputs.
#![tactic(auto)]
