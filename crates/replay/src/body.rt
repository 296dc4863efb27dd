// The parts of a call's body. A call is at the front of its array, number first, so that a part at a fixed place is always there; what a
// call's length must be, `replay_good_calls` has tested.
use base_numbers::read_little;
use base_octets::copy_octets;
use base_stamp::Stamp;
use replay_calls::MOST;
use stored_settings_body::{BODY, SettingsRead, settings_of};

// The stamp at a place.
pub(crate) fn stamp(call: &[u8; MOST], at: usize) -> Stamp {
    let all: &[u8] = call;
    if all.len() - 8 < at {
        return Stamp {
            seconds: 0,
            nanoseconds: 0,
        };
    }
    Stamp {
        seconds: read_little(all, at, 4),
        nanoseconds: read_little(all, at + 4, 4),
    }
}

// What is from a place to the call's end.
pub(crate) fn rest(call: &[u8; MOST], from: usize, n: usize) -> &[u8] {
    let all: &[u8] = call;
    if all.len() < n {
        return &all[0..0];
    }
    if n < from {
        return &all[0..0];
    }
    &all[from..n]
}

// The settings of 257.
pub(crate) fn settings(call: &[u8; MOST]) -> SettingsRead {
    let all: &[u8] = call;
    let mut body = [0u8; BODY];
    copy_octets(&mut body, 0, &all[2..83]);
    settings_of(&body)
}

// The settings of 269, behind the buffer's length.
pub(crate) fn settings_to_write(call: &[u8; MOST]) -> SettingsRead {
    let all: &[u8] = call;
    let mut body = [0u8; BODY];
    copy_octets(&mut body, 0, &all[4..85]);
    settings_of(&body)
}
