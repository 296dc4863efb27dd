// The DMM, written into the caller's buffer: from our own address to the loss peer's.
// It is made of what is given and of no state, and needs nothing of its caller: it is given our names as the settings keep them. Buffer
// and answer are as in `message_parts`. The DMM has a writer of its own: of the LMM's octets it shares the head alone, which `write_head`
// writes for both.
#![tactic(auto)]

ghost use Rattle.std.specs.Prelude.{◌≡◌, length};
ghost use Rattle.message_parts.specs.Buffer.{written_of, buffer_of, written_told, written_numbers};
ghost use Rattle.message_requests.specs.Requests.{dmm_named, dmm_length};

use base_bits::first_octet;
use base_numbers::write_big;
use base_octets::copy_octets;
use base_stamp::Stamp;
use frame_head::HEAD_LENGTH;
use message_parts::parts::{WriteRefusal, write_head, write_stamp};
use state_settings::{LOSSPEER, MEG, Names};

// How long a DMM is.
const DMM_LENGTH: usize = 51;

// Writes a DMM, 51 octets, version 1, from us to the loss peer, with the caller's stamp.
pub fn write_dmm(
    into: &mut [u8],
    names: &Names,
    level: u32,
    stamp: Stamp,
) -> Result<usize, WriteRefusal>
    ensures value { (result ≡ written_of (dmm_named names.now level stamp) into.old)
        × (written_told result ≡ written_numbers (dmm_named names.now level stamp) into.old) }
    ensures into_after { (into.new ≡ buffer_of (dmm_named names.now level stamp) into.old)
        × (length (dmm_named names.now level stamp) ≡ dmm_length) }
{
    let all: &[u8] = names;
    if into.len() < DMM_LENGTH {
        return Err(WriteRefusal::NoRoom);
    }
    copy_octets(into, 0, &all[LOSSPEER..MEG]);
    write_head(into, &all[..LOSSPEER], first_octet(level, 1), 47, 0, 32);
    write_stamp(into, HEAD_LENGTH + 4, stamp);
    write_big(into, HEAD_LENGTH + 12, 25, 0);
    Ok(DMM_LENGTH)
}
