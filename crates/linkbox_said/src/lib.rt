// That each function for C leaves what the paper says of its call, read from its numbers: statements and proofs, no code.
// The contract of each is taken as the check reads it off the source. From the numbers of each struct a definition reads the paper's
// answer, as a program in C would, and what each contract allows is the paper's outcome; the numbers are those of the answer, and all
// others are 0. One law serves all calls on a box: what agrees with the outcome of our box agrees with the paper's. Of a new setting it
// says two things: what is returned is the paper's, and so is what a caller holds who takes it over unless it is refused. A side that is
// neither 0 nor 1 is the passive one, as in the code: the paper has no refusal for it.
#![tactic(auto)]
