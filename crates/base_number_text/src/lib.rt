// The decimal text of a signed number, and what putting it at a place of a buffer leaves: definitions and statements, no code.
// Digits are ASCII, the highest first; '-' comes before a number below 0 and before no other, so never -0, and no '0' comes before
// another digit. A text that does not fit from its place to the buffer's end changes nothing.
#![tactic(auto)]
