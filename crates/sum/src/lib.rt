// Sums over runs of lines and over lists: definitions in specs/, laws in proofs/, no code.
#![tactic(auto)]
