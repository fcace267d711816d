// Definitions only: specs/ says what document 01 says, proofs/ what follows from it.
#![tactic(auto)]
