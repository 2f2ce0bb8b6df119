// The figures of 01, in one theorem: the statement in specs/, its proof in proofs/.
#![tactic(auto)]
