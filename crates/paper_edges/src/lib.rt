// The paper's edges that are to be proved, as one table under one statement: statements and proofs, no code.
#![tactic(auto)]
