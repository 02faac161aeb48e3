// What planning and replay answer, about bytes: definitions in specs/, demands 2 and 3 in proofs/Demands.antt. Nothing runs here.

#![tactic(auto)]
