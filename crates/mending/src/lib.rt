// No code yet: specs/ has the mending of a damaged plan as definitions that compute, proofs/ what they promise, about the rules and crates/coded alone.
#![tactic(auto)]
