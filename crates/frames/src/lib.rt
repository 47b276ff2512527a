// The frames of tape that are theorems, in specs/; no code.

#![tactic(auto)]
