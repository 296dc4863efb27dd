// What the paper says of every call, as a relation, and that our box follows it: statements and proofs, no code.
// A line for each sentence that decides something of a call, with its whole condition and its whole outcome, so none leans on the line
// before it. It is on three pages: Judged (a frame until it is known to be ours), Handling (rules 5 to 8) and Called (every other call);
// Said joins them. The words that they use are on pages of their own: Cases, Drops, Taken, Started, Standing, Made. The crates that
// decide do it by chains of tests; the relation states conditions on numbers and lists, and that each pair agrees is shown here, so a
// reader needs the conditions alone. Lengths are those of the arrays: a state has eight slots, six octets in an address and 48 in a MEG
// ID; the records of the definitions could be longer, and where that matters a definition says so.
#![tactic(auto)]
