// That what is written reads back as what it was made of: statements and proofs, no code.
// What is written reads back, by the definitions that the contracts of `frame_head`, `frame_message`, the crates of fields and the reader
// name, as exactly what it was made of: addresses, level, version, flags, offset, every field, and of a reply the request's TLVs with all
// that is behind them.
#![tactic(auto)]
