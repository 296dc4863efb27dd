// Counterexamples: five wrong boxes, each with a run on which it violates demand 3: statements and proofs, no code.
#![tactic(auto)]
