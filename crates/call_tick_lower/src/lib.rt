// What a tick lowers: every timer one tick later, in its place.
// It refuses nothing: whether a tick may pass is tested before. The loop over timers has its own short proof here.
#![tactic(auto)]

ghost use Rattle.std.specs.Prelude.{◌≡◌, map, ◌-◌};
ghost use Rattle.base_laws.specs.Lists.{on_first};
ghost use Rattle.state_view.specs.State.{at_start, at_end};
ghost use Rattle.state_view.specs.Changed.{next, put, lowered};
ghost use Rattle.state_places.specs.Stored.{Whole};

use state_settings::{LentSettings, Slots};
use state_view::{NEXT, Run, Totals};

// How many running words are timers: they come first.
const TIMERS: usize = 6;

// Lowers each of these timers.
fn lower_all(timers: &mut [u32])
    ensures { timers.new ≡ map (λ t. t - 1) timers.old }
{
    for timer in timers.iter_mut() {
        *timer = timer.saturating_sub(1);
    }
}

// Lowers the timers among the running words.
fn lower_running(run: &mut Run)
    ensures { run.new ≡ on_first (λ t. t - 1) 6 run.old }
{
    lower_all(&mut run[..TIMERS]);
}

// Lets a tick pass: every timer above 0 is one less, so many ticks are left to the next CCM, and all else is as it was.
pub fn pass_tick(
    settings: LentSettings<'_>,
    timers: &mut Slots,
    rdi: &Slots,
    run: &mut Run,
    totals: &Totals,
    left: u32,
)
    ensures totals_value { at_end settings timers.new rdi.now run.new totals.now ≡
        put next left (lowered (at_start settings timers.old rdi.now run.old totals.now)) }
    ensures whole { Whole run.new totals.now }
{
    // a view of an array has its length, and costs nothing
    let _words: &[u32] = run;
    let _both: &[i64] = totals;
    lower_all(timers);
    lower_running(run);
    run[NEXT] = left;
}
