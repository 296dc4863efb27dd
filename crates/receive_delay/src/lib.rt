// Delay measurement: the delays of a reply in signed nanoseconds, from stamps of any content. Rule 8 of the paper.
// The caller's nanoseconds are not judged here: refusal 6 has done that before a frame is read, and the delay of any receive stamp fits
// in 64 bits. In numbers a two-way result looks the same as three delays whose one-way parts are 0. Beside a drop every other value is 0.
#![tactic(auto)]

ghost use Rattle.std.specs.Prelude.{◌≡◌, ◌≤◌, nat_abs, ◌-ℤ◌};
ghost use Rattle.std.specs.Int.{w64};
ghost use Rattle.std.proofs.Common.{SFits};
ghost use Rattle.receive_delay.specs.Used.{instant, between, paired, usable};
ghost use Rattle.receive_delay.specs.Delays.{delays_of};
ghost use Rattle.receive_delay.specs.Told.{delay_told, delay_numbers};

use base_stamp::{Stamp, given_stamp, good_stamp};

// Why a delay reply gives no delays.
#[derive(Clone, Copy)]
pub enum NoDelay {
    // D7: a stamp that it uses has too many nanoseconds, or the caller's receive stamp is not given.
    BadStamp,
    // D8: a delay that a signed 64-bit number cannot hold. Never given.
    TooLarge,
}

// The delays that a delay reply gives.
#[derive(Clone, Copy)]
pub enum DelayValues {
    // The responder gave no pair of stamps: there and back, with its own time in it.
    TwoWay { twoway: i64 },
    // It gave both: there and back without its own time, and each way by itself.
    AllWays { twoway: i64, far: i64, near: i64 },
}

// A stamp in nanoseconds.
fn widened(s: Stamp) -> u64
    ensures { (result ≡ instant s) × (result ≤ 4294967299294967295) }
{
    (s.seconds as u64) * 1000000000 + (s.nanoseconds as u64)
}

// From one stamp to another, sign included: the one rule for all delays.
fn difference(from: Stamp, to: Stamp) -> i64
    ensures { (result ≡ between from to) × (nat_abs result ≤ 4294967299294967295) }
{
    (widened(to) as i64) - (widened(from) as i64)
}

// The way there and back less the time at the responder.
fn less(all: i64, there: i64) -> i64
    requires { SFits w64 (all -ℤ there) }
    ensures { result ≡ all -ℤ there }
{
    all - there
}

// Whether the responder gave both of its stamps.
fn pair(rxf: Stamp, txb: Stamp) -> bool
    ensures { result ≡ paired rxf txb }
{
    given_stamp(rxf) & given_stamp(txb)
}

// Whether every stamp that is used can be used.
fn stamps_good(txf: Stamp, rxf: Stamp, txb: Stamp, here: Stamp) -> bool
    ensures { result ≡ usable txf rxf txb here }
{
    good_stamp(txf) & (!pair(rxf, txb) | (good_stamp(rxf) & good_stamp(txb))) & given_stamp(here)
}

// The delays of a reply: D7, two-way alone, or all three, and never D8. From its three stamps and the caller's receive stamp:
//   txf is TxTimeStampf, when we asked, by our clock;
//   rxf is RxTimeStampf, when the request came, by the responder's clock;
//   txb is TxTimeStampb, when the reply left, by the responder's clock;
//   here is when the reply came, by our clock.
pub fn measure_delay(
    txf: Stamp,
    rxf: Stamp,
    txb: Stamp,
    here: Stamp,
) -> Result<DelayValues, NoDelay>
    ensures { (result ≡ delays_of txf rxf txb here) × (delay_told result ≡ delay_numbers txf rxf txb here) }
{
    if !stamps_good(txf, rxf, txb, here) {
        return Err(NoDelay::BadStamp);
    }
    let all = difference(txf, here);
    if !pair(rxf, txb) {
        return Ok(DelayValues::TwoWay { twoway: all });
    }
    Ok(DelayValues::AllWays {
        twoway: less(all, difference(rxf, txb)),
        far: difference(txf, rxf),
        near: difference(txb, here),
    })
}
