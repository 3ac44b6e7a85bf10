// Demands 2 and 3: stated in `specs/` and proved of the definitions in `proofs/`. No code.
#![tactic(auto)]
