// What a fracture promises, in specs/, and the demands as theorems about it, in proofs/. No code.
#![tactic(auto)]
