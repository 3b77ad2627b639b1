// What follows from the rules. There is no code: specs/ states each promise, proofs/ proves it.
#![tactic(auto)]
