// What holds of every box that follows the paper: refusals by the table, what refusals and drops leave: statements and proofs, no code.
// The refusals are a table, `paper_promised.Refusal`, with a line for each number that a call can give. Its theorem is an equivalence: in
// one direction alone a box that refuses nothing would pass, in the other one that refuses more than it should. So a number without a
// line is never given.
#![tactic(auto)]
