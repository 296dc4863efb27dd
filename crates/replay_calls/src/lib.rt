// Recorded calls: how long one is, its row in the tables of calls, and the part of the buffer that it passes in.
// A call is a two-octet length of all that follows it, 2 to 2,000, a two-octet number from 257 to 272, and a body as long as the table
// says. No function needs anything.
#![tactic(auto)]

ghost use Rattle.std.specs.Prelude.{◌≡◌};
ghost use Rattle.replay_calls.specs.RecordedCalls.{row_of, call_length, hands_over, room_of};

use base_numbers::read_little;

// The longest call, without its length.
pub const MOST: usize = 2000;

// The longest part of the buffer that a call may pass in.
pub const ROOM: usize = 1600;

// The first and the last call number, and how many there are.
const FIRST: u32 = 257;

const LAST: u32 = 272;

const KINDS: usize = 16;

// Where the call has the length of the buffer part that it passes in; 0 where it passes in none, as in the last row, for numbers that
// are no call's.
const PLACES: [usize; 17] = [0, 3, 2, 0, 2, 2, 0, 0, 0, 0, 0, 0, 2, 0, 2, 0, 0];

// The length in a call's first two octets; 0 where no call is so long.
// A 0 and no `Option`: the statement `replay_calls.Calls` (`bad`) says it so, and 0 is no call's length.
pub fn call_length(head: &[u8; 2]) -> usize
    ensures { result ≡ call_length head.now }
{
    let length = read_little(head, 0, 2) as usize;
    if length < 2 {
        return 0;
    }
    if MOST < length {
        return 0;
    }
    length
}

// The row of the tables that a call number has; as many as there are rows for a number that is no call's.
// No `Option`: each table ends with a row for those numbers, so that a table is read by any row, with no test beside it.
pub fn row_of(number: u32) -> usize
    ensures { result ≡ row_of number }
{
    if number < FIRST {
        return KINDS;
    }
    if LAST < number {
        return KINDS;
    }
    (number - FIRST) as usize
}

// Whether a call of this number passes in a part of the buffer.
pub fn hands_over(number: u32) -> bool
    ensures { result ≡ hands_over number }
{
    0 < PLACES[row_of(number)]
}

// How long a part of the buffer a call passes in; 0 where it passes in none.
// No `Option`: 0 is a length too, and the two callers hand over an empty part and compare with `ROOM` without a test.
pub fn room_of(call: &[u8]) -> usize
    ensures { result ≡ room_of call.now }
{
    if call.len() < 2 {
        return 0;
    }
    let place = PLACES[row_of(read_little(call, 0, 2))];
    if place == 0 {
        return 0;
    }
    if call.len() - 2 < place {
        return 0;
    }
    read_little(call, place, 2) as usize
}
