// The boundary to C: the CCM of a tick, an LMM and a DMM, on the arrays that hold the state, answered in the paper's numbers.
// Beside them it answers how many ticks are left to the next CCM, so that firmware knows how long it may rest. These are for firmware in C
// or Rust: linkbox_c exports them, and linkbox_raw.h declares them. Each calls the Rattle function of the same call and returns its answer
// in numbers. Any content of the memory is accepted.
#![tactic(auto)]

ghost use Rattle.std.specs.Prelude.{◌≡◌};
ghost use Rattle.base_laws.specs.Ended.{ended, told_by};
ghost use Rattle.state_view.specs.State.{before, after_tick};
ghost use Rattle.state_places.specs.Stored.{Whole};
ghost use Rattle.base_stamp.specs.Stamps.{Wire};
ghost use Rattle.call_send_answer.specs.Told.{tick_told, lmm_told, dmm_told};
ghost use Rattle.call_tick.specs.Tick.{tick_of};
ghost use Rattle.call_send_lmm.specs.Lmm.{send_lmm};
ghost use Rattle.call_send_dmm.specs.Dmm.{send_dmm};
ghost use Rattle.linkbox_send.specs.Next.{ticks_to_next};

use base_stamp::Stamp;
use call_send_answer::{tell_dmm, tell_lmm, tell_tick};
use call_send_dmm::send_dmm;
use call_send_lmm::send_lmm;
use message_parts::parts::WrittenTold;
use state_settings::{LentSettings, Names, Set, Slots};
use state_view::{LentState, NEXT, Run, Totals, lend};
use state_well_formed::is_well_formed;

// A tick; the last of a period writes a CCM into the front of the buffer.
pub fn linkbox_raw_tick(
    set: &Set,
    names: &Names,
    ids: &Slots,
    timers: &mut Slots,
    rdi: &Slots,
    run: &mut Run,
    totals: &Totals,
    out: &mut [u8],
) -> WrittenTold
    ensures out_after { ended result (after_tick set names ids timers.new rdi.now run.new totals.now) out.new ≡
        told_by tick_told (tick_of (before set names ids timers.old rdi.now run.old totals.now) out.old) }
    ensures whole { Whole run.new totals.now }
{
    let answer = call_tick::tick(
        LentSettings { set, names, ids },
        timers,
        rdi,
        run,
        totals,
        out,
    );
    tell_tick(answer)
}

// Writes an LMM into the front of the buffer.
pub fn linkbox_raw_send_lmm(
    set: &Set,
    names: &Names,
    ids: &Slots,
    timers: &Slots,
    rdi: &Slots,
    run: &Run,
    totals: &Totals,
    out: &mut [u8],
) -> WrittenTold
    ensures { ended result (before set names ids timers.now rdi.now run.now totals.now) out.new ≡
        told_by lmm_told (send_lmm (before set names ids timers.now rdi.now run.now totals.now) out.old) }
{
    let answer = send_lmm(
        lend(LentSettings { set, names, ids }, timers, rdi, run, totals),
        out,
    );
    tell_lmm(answer)
}

// Writes a DMM with the caller's stamp into the front of the buffer.
pub fn linkbox_raw_send_dmm(
    set: &Set,
    names: &Names,
    ids: &Slots,
    timers: &Slots,
    rdi: &Slots,
    run: &Run,
    totals: &Totals,
    stamp: Stamp,
    out: &mut [u8],
) -> WrittenTold
    ensures out_after { ended result (before set names ids timers.now rdi.now run.now totals.now) out.new ≡
        told_by dmm_told (send_dmm (before set names ids timers.now rdi.now run.now totals.now) stamp out.old) }
    ensures wire { Wire stamp }
{
    let answer = send_dmm(
        lend(LentSettings { set, names, ids }, timers, rdi, run, totals),
        stamp,
        out,
    );
    tell_dmm(answer)
}

// How many ticks are left to the next CCM, the one that writes it counted: 1 or more; 0 where the state is not well formed.
pub fn linkbox_raw_ticks_to_next(
    set: &Set,
    names: &Names,
    ids: &Slots,
    timers: &Slots,
    rdi: &Slots,
    run: &Run,
    totals: &Totals,
) -> u32
    ensures { result ≡ ticks_to_next (before set names ids timers.now rdi.now run.now totals.now) }
{
    let settings = LentSettings { set, names, ids };
    if !is_well_formed(LentState {
        settings,
        timers,
        rdi,
        run,
        totals,
    }) {
        return 0;
    }
    run[NEXT]
}
