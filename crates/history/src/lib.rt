// What every call does to the pictures held, what a run hands over, and that what it prints is read back: claims in specs/, their proofs in proofs/; no code.

#![tactic(auto)]
