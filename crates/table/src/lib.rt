#![tactic(auto)]
// What a layout's table holds: the types of a field, a group of fields and the row of an operation, and the numbers that they are told by. The packed tables
// themselves are definitions here; `table_code` and `table_operations` have them as code.
pub mod kinds;
pub mod places;

pub use places::{
    EMPTY_FIELDS, FEATURES_CLIENT, FEATURES_DAEMON, FRAMED_DATA, HELLO_CLIENT, HELLO_DAEMON, INFO,
    NOTHING, NUMBER_MESSAGE, OBSOLETE, ONE_NUMBER, ONE_STRING, PORTED_ERROR, RESULT_MESSAGE,
    SHORT_ERROR, SIZE, START_ACTIVITY, STRING_MESSAGE, STRING_SET, TRACED_ERROR,
};

// A field: its kind (0 ends a group), what becomes of its strings, where its number goes, and whether a version decides that it is there, and which.
#[derive(Clone, Copy)]
pub struct Field {
    pub kind: u8,
    pub role: u8,
    pub target: u8,
    pub gate: u8,
    pub minor: u8,
}

// A group of fields: its kind (0 ends a layout), where its flag or count goes, and the place of its first field.
#[derive(Clone, Copy)]
pub struct PackedGroup {
    pub kind: u8,
    pub target: u8,
    pub start: usize,
}

// An operation: its number, the groups of its arguments, of those that are skipped and of its reply, and the kinds of the three answers.
#[derive(Clone, Copy)]
pub struct Row {
    pub number: u64,
    pub arguments: u8,
    pub skipped: u8,
    pub reply: u8,
    pub arguments_kind: u8,
    pub skipped_kind: u8,
    pub reply_kind: u8,
}

// Kinds of fields. The first ends a group of them.
pub const END: u8 = 0;

pub const NUM: u8 = 1;

pub const STR: u8 = 2;

pub const SET: u8 = 3;

pub const PAIRS: u8 = 4;

pub const FRAMES: u8 = 5;

pub const MAYBE: u8 = 6;

pub const TYPED: u8 = 7;

pub const POSITION: u8 = 8;

// Kinds of groups; 0 ends a layout.
pub const ONCE: u8 = 1;

pub const OPT: u8 = 2;

pub const MANY: u8 = 3;

// What becomes of a string.
pub const PASSED: u8 = 0;

pub const CHECKED: u8 = 1;

pub const KEPT: u8 = 2;

// Where a number goes: nowhere; from the first of these on, number, flag or count i of the record; whether a group is there.
pub const DROPPED: u8 = 0;

pub const FIRST_NUMBER: u8 = 1;

pub const FIRST_FLAG: u8 = 13;

pub const FIRST_COUNT: u8 = 25;

pub const PRESENCE: u8 = 28;

// Is a field there? Always, from version 1.minor on, or below it.
pub const ALWAYS: u8 = 0;

pub const FROM: u8 = 1;

pub const BELOW: u8 = 2;
