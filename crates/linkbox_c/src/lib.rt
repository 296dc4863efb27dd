// The archive: the functions that firmware in C or Rust links, under the names that linkbox.h and linkbox_raw.h declare, and no others.
// A crate is a library for Rattle or a static library for C, and not both. So what is proved of each call, and what the statements cite,
// stands in the libraries of the boundary, `linkbox_frame` to `linkbox_state`. Each function here calls the one of the same name there,
// returns what it returns, and promises what it promises. An array is passed as a pointer to its first element, octets as a pointer and a
// length, and a struct by value. Any content of the memory is accepted. The caller must pass pointers to memory of these sizes, and what is
// written must overlap nothing else that is passed in.
#![tactic(auto)]

ghost use Rattle.std.specs.Prelude.{[], ◌≡◌};
ghost use Rattle.base_laws.specs.Ended.{ended, wrote, told_by};
ghost use Rattle.state_settings.specs.Settings.{slots, lent_settings, Shaped};
ghost use Rattle.loss_session.specs.Session.{readings};
ghost use Rattle.loss_lent.specs.Lent.{Lent};
ghost use Rattle.state_view.specs.State.{before, after, after_session, after_tick};
ghost use Rattle.state_places.specs.Stored.{Whole};
ghost use Rattle.base_stamp.specs.Stamps.{Wire};
ghost use Rattle.receive_answer.specs.Told.{frame_told};
ghost use Rattle.receive_frame.specs.Frame.{frame_of};
ghost use Rattle.call_send_answer.specs.Told.{tick_told, lmm_told, dmm_told};
ghost use Rattle.call_tick.specs.Tick.{tick_of};
ghost use Rattle.call_send_lmm.specs.Lmm.{send_lmm};
ghost use Rattle.call_send_dmm.specs.Dmm.{send_dmm};
ghost use Rattle.call_clear.specs.Clear.{clear_of, clear_told};
ghost use Rattle.call_conditions.specs.Conditions.{conditions_of};
ghost use Rattle.stored_record.specs.Writing.{record_told};
ghost use Rattle.stored_settings.specs.SettingsRecord.{read_settings, write_settings};
ghost use Rattle.stored_line.specs.LineCalls.{write_line, line_numbers};
ghost use Rattle.frame_seek.specs.Seek.{seek_of};
ghost use Rattle.linkbox_frame.specs.Sides.{side_of};
ghost use Rattle.linkbox_send.specs.Next.{ticks_to_next};
ghost use Rattle.linkbox_state.specs.NewBox.{new_box};
ghost use Rattle.linkbox_state.specs.Abi.{box_octets};
ghost use Rattle.linkbox_line.specs.Line.{loss_line_of};
ghost use Rattle.linkbox_reader.specs.Tlvs.{tlv_at};

use base_stamp::Stamp;
use call_conditions::ConditionsTold;
use call_setting::NewBox;
use linkbox_reader::TlvAt;
use loss_reading::LossTold;
use loss_session::LossSession;
use message_parts::parts::WrittenTold;
use receive_answer::FrameTold;
use state_settings::{Names, Set, Slots};
use state_view::{Run, Totals};
use stored_line::{LineTold, LossLine};
use stored_record::RecordTold;
use stored_settings_body::SettingsRead;

// How many octets a box has.
#[unsafe(no_mangle)]
pub extern "C" fn linkbox_abi() -> usize
    ensures { result ≡ box_octets }
{
    linkbox_state::linkbox_abi()
}

// A new setting, from settings that are only read. The caller takes the new state, or keeps its own where it is refused.
#[unsafe(no_mangle)]
pub extern "C" fn linkbox_raw_new_setting(set: &Set, names: &Names, ids: &Slots) -> NewBox
    ensures value { result ≡ new_box set.now names.now ids.now }
    ensures shaped { Shaped slots (lent_settings set names ids) }
{
    linkbox_state::linkbox_raw_new_setting(set, names, ids)
}

// A frame from a side, 0 for the active one and any other number for the passive one; a reply is written into the front of the buffer.
#[unsafe(no_mangle)]
pub extern "C" fn linkbox_raw_frame(
    set: &Set,
    names: &Names,
    ids: &Slots,
    timers: &mut Slots,
    rdi: &mut Slots,
    run: &mut Run,
    totals: &mut Totals,
    side: u32,
    frame: &[u8],
    receive: Stamp,
    transmit: Stamp,
    out: &mut [u8],
) -> FrameTold
    ensures out_after { ended result (after set names ids timers.new rdi.new run.new totals.new) out.new ≡ told_by frame_told
        (frame_of (before set names ids timers.old rdi.old run.old totals.old) (side_of side) frame.now receive transmit out.old) }
    ensures whole { Whole run.new totals.new }
    ensures wire { Wire receive × Wire transmit }
{
    linkbox_frame::linkbox_raw_frame(
        set, names, ids, timers, rdi, run, totals, side, frame, receive, transmit, out,
    )
}

// A tick; the last of a period writes a CCM into the front of the buffer.
#[unsafe(no_mangle)]
pub extern "C" fn linkbox_raw_tick(
    set: &Set,
    names: &Names,
    ids: &Slots,
    timers: &mut Slots,
    rdi: &Slots,
    run: &mut Run,
    totals: &Totals,
    out: &mut [u8],
) -> WrittenTold
    ensures out_after { ended result (after_tick set names ids timers.new rdi.now run.new totals.now) out.new ≡
        told_by tick_told (tick_of (before set names ids timers.old rdi.now run.old totals.now) out.old) }
    ensures whole { Whole run.new totals.now }
{
    linkbox_send::linkbox_raw_tick(set, names, ids, timers, rdi, run, totals, out)
}

// How many ticks are left to the next CCM, the one that writes it counted: 1 or more; 0 where the state is not well formed.
#[unsafe(no_mangle)]
pub extern "C" fn linkbox_raw_ticks_to_next(
    set: &Set,
    names: &Names,
    ids: &Slots,
    timers: &Slots,
    rdi: &Slots,
    run: &Run,
    totals: &Totals,
) -> u32
    ensures { result ≡ ticks_to_next (before set names ids timers.now rdi.now run.now totals.now) }
{
    linkbox_send::linkbox_raw_ticks_to_next(set, names, ids, timers, rdi, run, totals)
}

// A clear of the loss session; returns 0, or refusal 2.
#[unsafe(no_mangle)]
pub extern "C" fn linkbox_raw_clear(
    set: &Set,
    names: &Names,
    ids: &Slots,
    timers: &Slots,
    rdi: &Slots,
    run: &mut Run,
    totals: &mut Totals,
) -> u32
    ensures totals_value { ended result (after_session set names ids timers.now rdi.now run.new totals.new) [] ≡
        told_by (λ answer. (clear_told answer).refusal) (clear_of (before set names ids timers.now rdi.now run.old totals.old)) }
    ensures whole { Whole run.new totals.new }
{
    linkbox_state::linkbox_raw_clear(set, names, ids, timers, rdi, run, totals)
}

// Writes an LMM into the front of the buffer.
#[unsafe(no_mangle)]
pub extern "C" fn linkbox_raw_send_lmm(
    set: &Set,
    names: &Names,
    ids: &Slots,
    timers: &Slots,
    rdi: &Slots,
    run: &Run,
    totals: &Totals,
    out: &mut [u8],
) -> WrittenTold
    ensures { ended result (before set names ids timers.now rdi.now run.now totals.now) out.new ≡
        told_by lmm_told (send_lmm (before set names ids timers.now rdi.now run.now totals.now) out.old) }
{
    linkbox_send::linkbox_raw_send_lmm(set, names, ids, timers, rdi, run, totals, out)
}

// Writes a DMM with the caller's stamp into the front of the buffer.
#[unsafe(no_mangle)]
pub extern "C" fn linkbox_raw_send_dmm(
    set: &Set,
    names: &Names,
    ids: &Slots,
    timers: &Slots,
    rdi: &Slots,
    run: &Run,
    totals: &Totals,
    stamp: Stamp,
    out: &mut [u8],
) -> WrittenTold
    ensures out_after { ended result (before set names ids timers.now rdi.now run.now totals.now) out.new ≡
        told_by dmm_told (send_dmm (before set names ids timers.now rdi.now run.now totals.now) stamp out.old) }
    ensures wire { Wire stamp }
{
    linkbox_send::linkbox_raw_send_dmm(set, names, ids, timers, rdi, run, totals, stamp, out)
}

// The conditions, each by itself.
#[unsafe(no_mangle)]
pub extern "C" fn linkbox_raw_conditions(
    set: &Set,
    names: &Names,
    ids: &Slots,
    timers: &Slots,
    rdi: &Slots,
    run: &Run,
    totals: &Totals,
) -> ConditionsTold
    ensures { result ≡ conditions_of (before set names ids timers.now rdi.now run.now totals.now) }
{
    linkbox_state::linkbox_raw_conditions(set, names, ids, timers, rdi, run, totals)
}

// Writes the session's loss line as a record into the front of the buffer; refusal 2, then 3.
#[unsafe(no_mangle)]
pub extern "C" fn linkbox_raw_loss_line(
    set: &Set,
    names: &Names,
    ids: &Slots,
    timers: &Slots,
    rdi: &Slots,
    run: &Run,
    totals: &Totals,
    into: &mut [u8],
) -> RecordTold
    ensures { wrote result into.new ≡ loss_line_of (before set names ids timers.now rdi.now run.now totals.now) into.old }
{
    linkbox_line::linkbox_raw_loss_line(set, names, ids, timers, rdi, run, totals, into)
}

// Writes settings as a record into the front of the buffer.
#[unsafe(no_mangle)]
pub extern "C" fn linkbox_raw_write_settings(
    into: &mut [u8],
    set: &Set,
    names: &Names,
    ids: &Slots,
) -> RecordTold
    ensures into_after { wrote result into.new ≡
        told_by record_told (write_settings (lent_settings set names ids) into.old) }
    ensures shaped { Shaped slots (lent_settings set names ids) }
{
    linkbox_records::linkbox_raw_write_settings(into, set, names, ids)
}

// The settings of a stored record, or refusal 7 and zeros.
#[unsafe(no_mangle)]
pub extern "C" fn linkbox_read_settings(from: &[u8]) -> SettingsRead
    ensures { result ≡ read_settings from.now }
{
    linkbox_records::linkbox_read_settings(from)
}

// The loss line of a stored record, or refusal 7 and zeros.
#[unsafe(no_mangle)]
pub extern "C" fn linkbox_read_line(from: &[u8]) -> LineTold
    ensures { result ≡ line_numbers from.now }
{
    linkbox_records::linkbox_read_line(from)
}

// Writes a loss line as a record into the front of the buffer.
#[unsafe(no_mangle)]
pub extern "C" fn linkbox_write_line(into: &mut [u8], line: LossLine) -> RecordTold
    ensures { wrote result into.new ≡ told_by record_told (write_line line into.old) }
{
    linkbox_records::linkbox_write_line(into, line)
}

// One more reading of the lent loss session.
#[unsafe(no_mangle)]
pub extern "C" fn linkbox_measure(
    session: &mut LossSession,
    txf: u32,
    rxf: u32,
    txb: u32,
    ours: u32,
) -> LossTold
    ensures { Lent session.old (readings txf rxf txb ours) result session.new }
{
    linkbox_session::linkbox_measure(session, txf, rxf, txb, ours)
}

// The first TLV of a type in a frame: whether there is a value, where in the frame it is and how long it is, 0 and 0 where there is none.
#[unsafe(no_mangle)]
pub extern "C" fn linkbox_tlv(frame: &[u8], kind: u8) -> TlvAt
    ensures { result ≡ tlv_at (seek_of frame.now kind) }
{
    linkbox_reader::linkbox_tlv(frame, kind)
}
