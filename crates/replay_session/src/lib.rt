// How a loss session is laid out in 37 octets, as recorded runs hold it; such octets read and written, any content.
// Kept 1, the four readings of 4, near 8, far 8, intervals 4. Nothing is needed or tested: any 37 octets are a session, well formed or
// not, and are shown as the same octets.
#![tactic(auto)]

ghost use Rattle.std.specs.Prelude.{◌≡◌};
ghost use Rattle.replay_session.specs.Session.{session_at, session_octets};

use base_numbers::{read_little, write_little};
use base_signed::{read_little_signed, write_little_signed};
use loss_session::{LossSession, Readings};

// The octets of a session.
pub const SESSION: usize = 37;

// The session in these octets, taken as it is: nothing is tested.
pub fn session_in(from: &[u8; SESSION]) -> LossSession
    ensures { result ≡ session_at from.now }
{
    // one view of the array for every read
    let all: &[u8] = from;
    LossSession {
        kept: read_little(all, 0, 1),
        intervals: read_little(all, 33, 4),
        last: Readings {
            txf: read_little(all, 1, 4),
            rxf: read_little(all, 5, 4),
            txb: read_little(all, 9, 4),
            ours: read_little(all, 13, 4),
        },
        near: read_little_signed(all, 17),
        far: read_little_signed(all, 25),
    }
}

// The octets of a session: nothing is tested, and of `kept` what does not fit in its octet is left out.
pub fn session_octets(s: LossSession) -> [u8; SESSION]
    ensures { result ≡ session_octets s }
{
    let last = s.last;
    let mut octets = [0u8; SESSION];
    write_little(&mut octets, 0, 1, s.kept);
    write_little(&mut octets, 1, 4, last.txf);
    write_little(&mut octets, 5, 4, last.rxf);
    write_little(&mut octets, 9, 4, last.txb);
    write_little(&mut octets, 13, 4, last.ours);
    write_little_signed(&mut octets, 17, s.near);
    write_little_signed(&mut octets, 25, s.far);
    write_little(&mut octets, 33, 4, s.intervals);
    octets
}
