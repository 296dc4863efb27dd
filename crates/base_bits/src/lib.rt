// Bit fields of octets by shift and mask: level and version, flags, MEP ID.
// The contracts are said in `/` and `%`, so that a reader can check them with pencil and paper. No function needs anything: each takes
// the low bits of whatever it is given, so that no caller can make it write into a neighbour's bits.
#![tactic(auto)]

ghost use Rattle.std.specs.Prelude.{◌≡◌, ◌+◌, ◌*◌, ◌/◌, ◌%◌, ◌<◌};

// The level: the top three bits of a PDU's first octet.
pub fn level_of(first: u8) -> u32
    ensures { (result ≡ first / 32) × (result < 8) }
{
    (first >> 5) as u32
}

// The version: the low five bits of the first octet.
pub fn version_of(first: u8) -> u32
    ensures { result ≡ first % 32 }
{
    (first & 31) as u32
}

// The first octet of a PDU, from the low three bits of the level and the low five of the version.
pub fn first_octet(level: u32, version: u32) -> u8
    ensures { result ≡ level % 8 * 32 + version % 32 }
{
    (((level & 7) << 5) | (version & 31)) as u8
}

// The period code: the low three bits of the flags.
pub fn period_code_of(flags: u8) -> u32
    ensures { result ≡ flags % 8 }
{
    (flags & 7) as u32
}

// RDI, 0 or 1: bit 8 of the flags, the highest.
pub fn rdi_of(flags: u8) -> u32
    ensures { (result ≡ flags / 128) × (result < 2) }
{
    (flags >> 7) as u32
}

// The flags of a CCM: RDI's low bit on top, the low three bits of the period code below, the reserved bits between them 0.
pub fn ccm_flags(rdi: u32, code: u32) -> u8
    ensures { result ≡ rdi % 2 * 128 + code % 8 }
{
    (((rdi & 1) << 7) | (code & 7)) as u8
}

// The MEP ID: the low thirteen bits of its two octets. The three above are reserved and not read.
pub fn mep_id_of(field: u32) -> u32
    ensures { result ≡ field % 8192 }
{
    field & 0x1fff
}
