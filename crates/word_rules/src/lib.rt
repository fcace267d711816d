// No code: specs/ has the first stage that the two word rules finish differently, as a definition that computes, proofs/ what it promises.
#![tactic(auto)]
