// What is proved of sizes: what a radius is worth. Definitions in specs, theorems in proofs; no code.
#![tactic(auto)]
