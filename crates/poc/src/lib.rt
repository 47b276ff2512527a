// Picture numbers: the definitions, what is claimed of them and the theorems, in specs/ and proofs/; the functions stand in crates `offsets` and
// `derivation`.

#![tactic(auto)]
