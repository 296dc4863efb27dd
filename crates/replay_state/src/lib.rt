// How a state is laid out in 194 octets, any content, there and back, as recorded runs put and show it: definitions and laws.
// Settings 81, sent and received, the peers' timers, their RDI, the timers of the conditions and the ticks to the next CCM, the session
// 37. Nothing is tested: any 194 octets can be put as a state, well formed or not, and are shown as the same octets. Kept and RDI are
// octets there and words in the arrays; nothing is lost, since what is put fits.
#![tactic(auto)]

// The octets of a state.
pub const STATE: usize = 194;
