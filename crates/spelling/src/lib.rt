// The words for a call, and that reading them gives the call: definitions, claims and proofs, no code.

#![tactic(auto)]
