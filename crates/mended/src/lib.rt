// No code: proofs/ has what a call that mends leaves, by its contract: an accepted plan stays, a mended one passes the check and reads as the graph
// says, the list and the two plans tell each other, and what the placer built comes back from damage under its tops.
#![tactic(auto)]
