// The order's demands, whole, each as one predicate on a box, and that our box meets them: statements and proofs, no code.
// The demands are in eight crates and not in one, so that an edit of a statement is tried in seconds: the relation in `paper_said`, what
// holds of every box that follows it in `paper_promised`, demand 3 in `paper_loss` with counterexamples in `paper_wrong_boxes`, time in
// `paper_time`, the calls beside the box in `paper_beside`, and what C calls in `linkbox_said`. All of them come together here, on one
// page.
#![tactic(auto)]
