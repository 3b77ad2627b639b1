// What follows from the promises and from what the code says of its calls. There is no code: specs/ states it, proofs/ proves it.
#![tactic(auto)]
