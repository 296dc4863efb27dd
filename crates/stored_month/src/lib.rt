// That a month worked again, written and printed, is the account in unlimited whole numbers: statements and proofs, no code.
// What `stored_replies::recount` writes of raw replies, and what `stored_sheet_lines::write_lines` prints of that, are the account's, for
// true counts of any size, at most 1,000,000,001 of them, none of which falls or grows by 2^32 or more from one reply to the next. Each
// count modulo 2^32, in four octets, comes back (`stored_month.raw_back`); every reply is taken (`stored_month.taken`); the records are
// those of the account's lines (`stored_month.written`), near and far since the first reply, sent less received
// (`stored_month.account_line`), and one interval fewer than replies; the sheet of the records is the account's (`stored_month.sheet`);
// after 1,000,000,001 replies the work halts with 5 at the next (`stored_month.full`); the grain quay's two replies print a near loss of
// -1 (`stored_month.grain_quay`).
#![tactic(auto)]
