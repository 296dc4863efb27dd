// The LMM, written into the caller's buffer: from our own address to the loss peer's.
// It is made of what is given and of no state, and needs nothing of its caller: it is given our names as the settings keep them. Buffer
// and answer are as in `message_parts`. The LMM has a writer of its own: of the DMM's octets it shares the head alone, which `write_head`
// writes for both.
#![tactic(auto)]

ghost use Rattle.std.specs.Prelude.{◌≡◌, length};
ghost use Rattle.message_parts.specs.Buffer.{written_of, buffer_of, written_told, written_numbers};
ghost use Rattle.message_requests.specs.Requests.{lmm_named, lmm_length};

use base_bits::first_octet;
use base_numbers::write_big;
use base_octets::copy_octets;
use frame_head::HEAD_LENGTH;
use message_parts::parts::{WriteRefusal, write_head};
use state_settings::{LOSSPEER, MEG, Names};

// How long an LMM is.
const LMM_LENGTH: usize = 31;

// Writes an LMM, 31 octets, version 1, from us to the loss peer, with our sent count.
pub fn write_lmm(
    into: &mut [u8],
    names: &Names,
    level: u32,
    sent: u32,
) -> Result<usize, WriteRefusal>
    ensures value { (result ≡ written_of (lmm_named names.now level sent) into.old)
        × (written_told result ≡ written_numbers (lmm_named names.now level sent) into.old) }
    ensures into_after { (into.new ≡ buffer_of (lmm_named names.now level sent) into.old)
        × (length (lmm_named names.now level sent) ≡ lmm_length) }
{
    let all: &[u8] = names;
    if into.len() < LMM_LENGTH {
        return Err(WriteRefusal::NoRoom);
    }
    copy_octets(into, 0, &all[LOSSPEER..MEG]);
    write_head(into, &all[..LOSSPEER], first_octet(level, 1), 43, 0, 12);
    write_big(into, HEAD_LENGTH + 4, 4, sent);
    write_big(into, HEAD_LENGTH + 8, 9, 0);
    Ok(LMM_LENGTH)
}
