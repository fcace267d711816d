// No code: proofs/ has what the check of a plan says, by its contract: an accepted plan folds and reads as the graph says, what the placer built
// is accepted, and a fault is one.
#![tactic(auto)]
