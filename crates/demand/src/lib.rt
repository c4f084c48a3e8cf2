// Demand 3 on the words of a store: the statement is in specs/, its proof in proofs/. There is no code.
#![tactic(auto)]
