// No code: the promises, in one place. What is claimed stands in specs/, its proof in proofs/.
#![tactic(auto)]
