// No code: specs/ has the replay of a recording as definitions that compute, proofs/ what they promise.
#![tactic(auto)]
