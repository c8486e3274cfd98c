#![tactic(auto)]
// The exact rules, as definitions (`specs/`) and theorems about them (`proofs/`). The code is what the crates above share: the numbers
// of the refusals, their type, and the record, which the readers fill.
ghost use Rattle.std.specs.Prelude.{◌≡◌};
ghost use Rattle.layouts.specs.Refusal.{plain};

// A piece needs more bytes than remain.
pub const CUT_SHORT: u64 = 1;

// A length above the limit.
pub const TOO_LONG: u64 = 2;

// A decoded string is not RFC 3629 text.
pub const BAD_TEXT: u64 = 3;

// A kept string has no slot.
pub const NO_ENTRY_ROOM: u64 = 4;

// A chunk does not fit in what is left.
pub const NO_PAYLOAD_ROOM: u64 = 5;

// The client's magic, the daemon's; and a handshake whose last number is not Last.
pub const CLIENT_MAGIC_WRONG: u64 = 6;

pub const DAEMON_MAGIC_WRONG: u64 = 7;

pub const NOT_LAST: u64 = 8;

// The number is in no row of the table.
pub const UNKNOWN_OPERATION: u64 = 9;

// A writer's whole output does not fit.
pub const OUTPUT_FULL: u64 = 10;

// An index, or a count, above the slots.
pub const NO_SUCH_ENTRY: u64 = 11;

// An entry passes the end of the bytes.
pub const BAD_ENTRY: u64 = 12;

// The call writer: no arguments are known for the operation at that version.
pub const NO_ARGUMENTS: u64 = 13;

// The call writer: what no field takes is not 0 or empty, or a flag is above 1.
pub const NOT_OF_SHAPE: u64 = 14;

// A position in an error block is not 0.
pub const NONZERO_POSITION: u64 = 15;

// How arguments and error blocks are read: as nix-wire does, or as the daemon's published source has them.
#[derive(Clone, Copy)]
pub enum Mode {
    Ported,
    Published,
}

// Why a call stops: the refusal's number, its place, and 1 for the daemon's stream of a handshake, else 0.
#[derive(Clone, Copy)]
pub struct Refusal {
    pub which: u64,
    pub place: usize,
    pub stream: u64,
}

// A refusal of a stream that is not a handshake's.
pub fn refuse(which: u64, place: usize) -> Refusal
    ensures { result ≡ plain which place }
{
    Refusal {
        which,
        place,
        stream: 0,
    }
}

// What a layout says: twelve numbers, three counts, whether a group that a flag decides is there, how many entries, how many payload bytes.
#[derive(Drop)]
pub struct Record {
    pub numbers: [u64; 12],
    pub counts: [u64; 3],
    pub present: bool,
    pub entries: usize,
    pub payload: usize,
}
