// What a power cut and recoveries leave, and what holds after every call: statements in specs/, proofs in proofs/. Nothing here has a body.
#![tactic(auto)]
