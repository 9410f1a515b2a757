// The mathematics of cutting, over any sort of piece and cut: definitions in specs/, laws in proofs/, no code.
#![tactic(auto)]
