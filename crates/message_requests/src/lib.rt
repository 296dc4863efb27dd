// LMM and DMM octet by octet, and how they are laid over a buffer: definitions and laws, no code.
// `message_lmm` and `message_dmm` write them.
#![tactic(auto)]
