// No code: proofs/ has the theorems of demand 3, about the rules alone, and what they say of the placer and the fold.
#![tactic(auto)]
