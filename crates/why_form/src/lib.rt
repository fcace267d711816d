// No code: specs/ has what an explanation of a build says, as definitions that compute, proofs/ what it promises.
#![tactic(auto)]
