// Whether the peers' slots are within their bounds, and unused ones empty: a part of whether a state is well formed.
// The bounds are tested over all slots, which for eight are a few vector instructions, and the unused part by itself. Over sixty-four the
// bounds can be tested in the used part alone, under the same contract.
#![tactic(auto)]

ghost use Rattle.std.specs.Prelude.{◌≡◌};
ghost use Rattle.state_view.specs.WellFormed.{slots_good};

use base_words::{all_within, zero_from};
use state_settings::Slots;

// Whether the slots' timers and RDIs are within their bounds, and unused slots have neither.
pub fn slots_good(timers: &Slots, rdi: &Slots, count: u32, hold: u32) -> bool
    ensures { result ≡ slots_good timers.now rdi.now count hold }
{
    let used = count as usize;
    let bounded = all_within(timers, hold) & zero_from(timers, used);
    bounded & (all_within(rdi, 1) & zero_from(rdi, used))
}
