// Demand 3 for a loss session, as a predicate on any step, in unlimited whole numbers: statements and proofs, no code.
// `loss_account.Demand3` takes any step from a session and four readings to an answer and a session. It names the cleared session, the
// paper's answers and `loss_account.lost`, sent less received in unlimited whole numbers, and no rule by which a step might count. One
// direction is said once, near and far are it twice: each needs a premise on its own two counts alone, and the intervals need none.
// `paper_loss.Demand3` is the same demand on a whole box; that crate has definitions of the same names.
// Without code, so an edit of a statement is tried in seconds.
#![tactic(auto)]
