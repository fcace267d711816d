// No code: proofs/ has what follows from the definitions of cells with their inversions and of a plan's first fault, about the rules alone.
#![tactic(auto)]
