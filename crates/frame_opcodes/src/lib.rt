// The table of opcodes: all that an opcode decides, in one row.
// The one match on an opcode; the reader and the box read its columns. It answers for any octet. The paper's lists of opcodes are laws of
// this table, so no list can drift from another. Below the reader, so that a mistake in a row is tried without the reader's proof.
#![tactic(auto)]

ghost use Rattle.std.specs.Prelude.{◌≡◌};
ghost use Rattle.frame_opcodes.specs.Opcodes.{rule_of};

// Who handles a message.
#[derive(Clone, Copy)]
pub enum Handler {
    // Not in the paper's table.
    Nobody,
    // In the table and read, but not handled by the box: a loopback reply.
    ReaderOnly,
    Continuity,
    Loopback,
    Alarm,
    Lock,
    LossReply,
    LossRequest,
    DelayReply,
    DelayRequest,
}

// All that an opcode decides, a row of the table.
#[derive(Clone, Copy)]
pub struct Rule {
    pub handler: Handler,
    // The least TLV offset.
    pub least: usize,
    // Whether the paper's table has it, so that it can be read.
    pub known: bool,
    // Whether the box handles it: any of the table but the loopback reply.
    pub handled: bool,
    // Whether the multicast address of its level is a good destination.
    pub multicast: bool,
    // Whether it is a request, which no group sends.
    pub request: bool,
    // Whether it comes from the loss peer alone.
    pub losspeer: bool,
    // Whether its period code is not 0.
    pub period: bool,
    // Whether its period code is 4 or 6.
    pub alarm: bool,
}

// The row of an opcode: who handles it, its least offset, whether it can be read and is handled, whether the multicast address is good,
// whether it is a request, whether it comes from the loss peer alone, which period codes are good.
pub fn rule_of(opcode: u8) -> Rule
    ensures { result ≡ rule_of opcode }
{
    match opcode {
        1 => Rule {
            handler: Handler::Continuity,
            least: 70,
            known: true,
            handled: true,
            multicast: true,
            request: false,
            losspeer: false,
            period: true,
            alarm: false,
        },
        2 => Rule {
            handler: Handler::ReaderOnly,
            least: 4,
            known: true,
            handled: false,
            multicast: false,
            request: false,
            losspeer: false,
            period: false,
            alarm: false,
        },
        3 => Rule {
            handler: Handler::Loopback,
            least: 4,
            known: true,
            handled: true,
            multicast: true,
            request: true,
            losspeer: false,
            period: false,
            alarm: false,
        },
        33 => Rule {
            handler: Handler::Alarm,
            least: 0,
            known: true,
            handled: true,
            multicast: true,
            request: false,
            losspeer: false,
            period: false,
            alarm: true,
        },
        35 => Rule {
            handler: Handler::Lock,
            least: 0,
            known: true,
            handled: true,
            multicast: true,
            request: false,
            losspeer: false,
            period: false,
            alarm: true,
        },
        42 => Rule {
            handler: Handler::LossReply,
            least: 12,
            known: true,
            handled: true,
            multicast: false,
            request: false,
            losspeer: true,
            period: false,
            alarm: false,
        },
        43 => Rule {
            handler: Handler::LossRequest,
            least: 12,
            known: true,
            handled: true,
            multicast: true,
            request: true,
            losspeer: false,
            period: false,
            alarm: false,
        },
        46 => Rule {
            handler: Handler::DelayReply,
            least: 32,
            known: true,
            handled: true,
            multicast: false,
            request: false,
            losspeer: false,
            period: false,
            alarm: false,
        },
        47 => Rule {
            handler: Handler::DelayRequest,
            least: 32,
            known: true,
            handled: true,
            multicast: true,
            request: true,
            losspeer: false,
            period: false,
            alarm: false,
        },
        _ => Rule {
            handler: Handler::Nobody,
            least: 0,
            known: false,
            handled: false,
            multicast: false,
            request: false,
            losspeer: false,
            period: false,
            alarm: false,
        },
    }
}
