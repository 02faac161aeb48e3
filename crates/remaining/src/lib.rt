// The remaining program as a tree over record numbers: definitions in specs/, theorems in proofs/; nothing runs here.

#![tactic(auto)]
