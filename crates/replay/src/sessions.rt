// The calls on the lent session.
use crate::held::{Held, Ran, measured};
use crate::line::{octets, refused};
use crate::steps::losses;
use base_numbers::read_little;
use base_octets::copy_octets;
use base_text::write_word;
use loss_lent::answer;
use replay_calls::MOST;
use replay_session::{SESSION, session_in, session_octets};

// 266: the session is put as it is.
pub(crate) fn put_session(held: Held, call: &[u8; MOST], line: &mut [u8]) -> Ran {
    let all: &[u8] = call;
    let mut body = [0u8; SESSION];
    copy_octets(&mut body, 0, &all[2..39]);
    let session = session_in(&body);
    measured(held, session, write_word(line, 0, b"set"))
}

// 267: one more reading, by the rule by value, of which the lent function of `linkbox_session` only stores the result.
pub(crate) fn run_measure(held: Held, call: &[u8; MOST], line: &mut [u8]) -> Ran {
    let all: &[u8] = call;
    let before = held.session;
    let answered = answer(
        before,
        read_little(all, 2, 4),
        read_little(all, 6, 4),
        read_little(all, 10, 4),
        read_little(all, 14, 4),
    );
    let told = answered.told;
    let session = answered.session;
    if told.refusal != 0 {
        return measured(held, session, refused(line, told.refusal));
    }
    let shown = session_octets(session);
    let at = losses(line, told.near, told.far);
    let next = write_word(line, at, b" session");
    measured(held, session, octets(line, next, &shown))
}
