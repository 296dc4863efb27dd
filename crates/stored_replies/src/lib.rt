// Raw loss replies worked again in memory, a stored loss line after each; chunks of them give what the whole gives.
// The four counts of each reply go to a session, a raw reply being four counts of 32 bits, the lowest octet first, in the paper's order
// of readings; that form is ours. Refusal 2 where the session is not well formed, then 3 where the buffer has no room for a record of 24
// octets for each whole reply of 16; then nothing changes. Where the session has no interval left for a reply, the call halts there, and
// its answer says so in a flag of its own, halted, for the paper's number 5: the replies before it are taken and their records written
// (`stored_replies.worked`), that one and those after it are not taken. A halt is no refusal, since a refused call would leave
// everything, and no call is both; to refuse the whole chunk would lose good lines. Octets behind the last whole reply are not looked at.
#![tactic(auto)]

ghost use Rattle.std.specs.Prelude.{◌≡◌, ◌+◌, ◌≤◌, length};
ghost use Rattle.base_laws.specs.Ended.{wrote};
ghost use Rattle.base_laws.specs.Lists.{laid};
ghost use Rattle.loss_lent.specs.Lent.{reading_of};
ghost use Rattle.stored_line.specs.Line.{KeepsRules, line_record};
ghost use Rattle.stored_replies.specs.Replies.{readings_in, line_of};
ghost use Rattle.stored_replies.specs.Recount.{recount_told, recount_into};

use base_numbers::read_little;
use base_octets::copy_octets;
use loss_lent::{Answered, answer};
use loss_session::{LossSession, well_formed};
use stored_line::{LINE, LossLine};
use stored_line_calls::write_line;

// Why no reply is worked through. Nothing is written then, and nothing is taken.
#[derive(Clone, Copy)]
pub enum RecountRefusal {
    // Refusal 2: the session is not well formed.
    NotWellFormed,
    // Refusal 3: the buffer has no room for a record of each reply.
    NoRoom,
}

// How far the replies were worked through. One that halted took the replies that it counts, and keeps them.
#[derive(Clone, Copy)]
pub struct Recounted {
    // Whether a reply is left that would start interval 1,000,000,001: the paper's number 5.
    pub halted: bool,
    // The replies taken, and so the records written.
    pub taken: usize,
    pub session: LossSession,
}

// The octets of a reply: four counts of 32 bits.
pub const REPLY: usize = 16;

// The session's answer to a reply: TxFCf, RxFCf, TxFCb and our own received count.
fn answer_reply(reply: &[u8], s: LossSession) -> Answered
    requires { 16 ≤ length reply.now }
    ensures { result ≡ reading_of s (readings_in reply.now) }
{
    let txf = read_little(reply, 0, 4);
    let rxf = read_little(reply, 4, 4);
    let txb = read_little(reply, 8, 4);
    let ours = read_little(reply, 12, 4);
    answer(s, txf, rxf, txb, ours)
}

// Writes the line of a session as a record at a place.
fn put_record(into: &mut [u8], at: usize, s: LossSession)
    requires { (at + 24 ≤ length into.old) × KeepsRules (line_of s) }
    ensures { into.new ≡ laid at (line_record (line_of s)) into.old }
{
    let mut stored = [0u8; LINE];
    // never refused: the line keeps the rules, and there is room
    let _written = write_line(
        &mut stored,
        LossLine {
            near: s.near,
            far: s.far,
            intervals: s.intervals,
        },
    );
    copy_octets(into, at, &stored);
}

// Works through the whole replies of a chunk, from a session on, and writes their records into the front of the buffer. Octets behind the
// last whole reply are not looked at. A refusal changes nothing. Where the session has no interval left for a reply the work halts there,
// and what was done before it stays.
pub fn recount(
    into: &mut [u8],
    from: &[u8],
    session: LossSession,
) -> Result<Recounted, RecountRefusal>
    ensures { wrote (recount_told session result) into.new ≡ recount_into session from.now into.old }
{
    if !well_formed(session) {
        return Err(RecountRefusal::NotWellFormed);
    }
    let count = from.len() / REPLY;
    if into.len() / LINE < count {
        return Err(RecountRefusal::NoRoom);
    }
    let mut s = session;
    // 16.0 ns a reply, and 14.8 where replies and octets were counted by hand; from turn to turn both vary by a third
    for (i, reply) in from.chunks_exact(REPLY).enumerate() {
        let next = answer_reply(reply, s);
        if next.told.refusal != 0 {
            let halt = Recounted {
                halted: true,
                taken: i,
                session: s,
            };
            return Ok(halt);
        }
        let after = next.session;
        put_record(into, i * LINE, after);
        s = after;
    }
    Ok(Recounted {
        halted: false,
        taken: count,
        session: s,
    })
}
