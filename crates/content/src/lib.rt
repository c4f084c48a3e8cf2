// What is proved of canonical bytes: the statements are in specs/, their proofs in proofs/. There is no code.
#![tactic(auto)]
