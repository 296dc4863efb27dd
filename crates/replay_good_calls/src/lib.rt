// Which octets are a call: a number that is known, a body of its length, a good side, a good buffer.
// The side of a frame is 0 or 1, and a buffer part has at most 1,600 octets. Anything else is a bad call. Tested once here, so that no
// handler tests a length.
#![tactic(auto)]

ghost use Rattle.std.specs.Prelude.{◌≡◌};
ghost use Rattle.replay_good_calls.specs.GoodCalls.{side_good, is_call};

use base_numbers::read_little;
use replay_calls::{ROOM, room_of, row_of};

// For each call number the fewest and the most octets of its body; the last row, for numbers that are no call's, lets none through.
const FEWEST: [usize; 17] = [81, 19, 2, 0, 2, 10, 194, 0, 1, 37, 16, 0, 83, 0, 22, 0, 1];

const GREATEST: [usize; 17] = [
    81, 1998, 2, 0, 2, 10, 194, 0, 1998, 37, 16, 1998, 83, 1998, 22, 0, 0,
];

// The call that brings a side.
const FRAME: u32 = 258;

// Whether the side of a call that brings one is 0 or 1.
fn side_good(call: &[u8], number: u32) -> bool
    ensures { result ≡ side_good number call.now }
{
    if number != FRAME {
        return true;
    }
    if call.len() < 3 {
        return true;
    }
    call[2] <= 1
}

// Whether these octets are a call without its length: a number that is known, a body of its length, a good side, a good buffer.
pub fn is_call(call: &[u8]) -> bool
    ensures { result ≡ is_call call.now }
{
    if call.len() < 2 {
        return false;
    }
    let number = read_little(call, 0, 2);
    let row = row_of(number);
    let n = call.len() - 2;
    let long = (FEWEST[row] <= n) & (n <= GREATEST[row]);
    let side = side_good(call, number);
    let room = room_of(call);
    long & side & (room <= ROOM)
}
