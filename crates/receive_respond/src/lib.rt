// The answer to a request: the reply written from the request, our address, our counts and the caller's stamps. Rule 6 of the paper.
// D5 where the request ends before its fixed part does, which `receive_decide` has ruled out by then; refusal 3 where the buffer is
// shorter than the reply. Nothing changes by either. The state is only read.
#![tactic(auto)]

ghost use Rattle.std.specs.Prelude.{◌≡◌};
ghost use Rattle.state_settings.specs.Settings.{own_named};
ghost use Rattle.state_view.specs.State.{state_in};
ghost use Rattle.receive_respond.specs.Respond.{answer_for, responded_of, left_after};

use base_stamp::Stamp;
use message_dmr::write_dmr;
use message_lbr::write_lbr;
use message_lmr::write_lmr;
use message_reply::ReplyRefusal;
use receive_answer::{Drop, FrameDone, FrameRefusal};
use state_settings::Names;
use state_view::{LentState, RECEIVED, SENT};

// A message that is answered.
#[derive(Clone, Copy)]
pub enum Request {
    Loopback,
    Loss,
    Delay,
}

// Our own address.
fn own_address(names: &Names) -> [u8; 6]
    ensures { result ≡ own_named names.now }
{
    // a view of the array has its length, and costs nothing
    let _all: &[u8] = names;
    [names[0], names[1], names[2], names[3], names[4], names[5]]
}

// What writing a reply is answered, as a frame's answer.
#[tactic(auto, unfolding(crate::specs::Respond::answer_for))]
fn answer_for(replied: Result<usize, ReplyRefusal>) -> Result<FrameDone, FrameRefusal>
    ensures { result ≡ answer_for replied }
{
    // no `From`: both types are other crates'
    match replied {
        Ok(n) => Ok(FrameDone::Replied(n)),
        Err(ReplyRefusal::CutOff) => Ok(FrameDone::Dropped(Drop::CutOff)),
        Err(ReplyRefusal::NoRoom) => Err(FrameRefusal::NoRoom),
    }
}

// Answers a request: the LBR, LMR or DMR of it in our name, with our counts or the caller's stamps.
pub fn respond(
    state: LentState<'_>,
    frame: &[u8],
    receive: Stamp,
    transmit: Stamp,
    request: Request,
    out: &mut [u8],
) -> Result<FrameDone, FrameRefusal>
    ensures value { result ≡
        responded_of (state_in state) frame.now receive transmit out.old request }
    ensures out_after { out.new ≡
        left_after (state_in state) frame.now receive transmit out.old request }
{
    let own = own_address(state.settings.names);
    match request {
        Request::Loopback => answer_for(write_lbr(out, frame, own)),
        Request::Loss => {
            let received = state.run[RECEIVED];
            let sent = state.run[SENT];
            answer_for(write_lmr(out, frame, own, received, sent))
        }
        Request::Delay => answer_for(write_dmr(out, frame, own, receive, transmit)),
    }
}
