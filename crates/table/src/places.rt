// Made by ./tables from crates/layouts/specs and crates/table/specs/Claims.antt: where the groups of each layout begin.

// How many numbers there are. Past its end the table reads as 0, so this is also a place without fields.
pub const SIZE: usize = 318;

// ---- the layouts outside of the table of operations

// s
pub const STRING_MESSAGE: u8 = 78;

// n
pub const NUMBER_MESSAGE: u8 = 80;

// n n n s, count of typed, n
pub const START_ACTIVITY: u8 = 82;

// n n, count of typed
pub const RESULT_MESSAGE: u8 = 86;

// S N S S, flag, if true s n n
pub const PORTED_ERROR: u8 = 89;

// S N S S position, count of position S
pub const TRACED_ERROR: u8 = 92;

// S N
pub const SHORT_ERROR: u8 = 95;

// N N
pub const HELLO_CLIENT: u8 = 97;

// N N
pub const HELLO_DAEMON: u8 = 99;

// from 1.38 S*
pub const FEATURES_CLIENT: u8 = 101;

// from 1.38 S*
pub const FEATURES_DAEMON: u8 = 103;

// from 1.14 flag with n, from 1.11 n
pub const OBSOLETE: u8 = 105;

// from 1.33 S, from 1.35 N, N
pub const INFO: u8 = 107;

// S*
pub const STRING_SET: u8 = 4;

// F
pub const FRAMED_DATA: u8 = 109;

// nothing
pub const NOTHING: u8 = 1;

// nothing
pub const EMPTY_FIELDS: u8 = 20;

// N
pub const ONE_NUMBER: u8 = 2;

// S
pub const ONE_STRING: u8 = 0;

// ---- the layouts of operations, each named after its definition, or else after the first operation that has it

// nothing
pub const NO_GROUPS: u8 = 1;

// nothing
pub const NO_FIELDS: u8 = 20;

// n s, from 1.29 n n n n, from 1.37 flag with n flag with n, from 1.28 p
pub const BUILD_RESULT: u8 = 50;

// N N N N N N N N N N, from 1.10 N, from 1.12 N P
pub const OPTIONS: u8 = 24;

// N
pub const A_NUMBER: u8 = 2;

// S
pub const A_STRING: u8 = 0;

// S*
pub const A_SET: u8 = 4;

// P
pub const A_MAP: u8 = 22;

// count of S S s* n n
pub const SUBSTITUTES: u8 = 40;

// from 1.25 S S S* flag F
pub const ARGUMENTS_7: u8 = 6;

// below 1.25 S n n s, from 1.25 S s s* n
pub const SKIPPED_7: u8 = 8;

// below 1.25 S, from 1.25 S without entry S S S* N N flag S* S
pub const REPLY_7: u8 = 10;

// S S S*
pub const ARGUMENTS_8: u8 = 12;

// s s s*
pub const SKIPPED_8: u8 = 14;

// S* N
pub const ARGUMENTS_9: u8 = 16;

// s* n
pub const SKIPPED_9: u8 = 18;

// n n n n n n n n n n, from 1.10 n, from 1.12 n p
pub const SKIPPED_19: u8 = 26;

// N S* N N n n n
pub const ARGUMENTS_20: u8 = 28;

// n s* n n n n n
pub const SKIPPED_20: u8 = 30;

// N n n
pub const REPLY_20: u8 = 32;

// flag, if true S S* N N
pub const REPLY_21: u8 = 34;

// flag, if true S S S* N N, from 1.16 flag S* S
pub const REPLY_26: u8 = 36;

// s*
pub const SKIPPED_30: u8 = 38;

// S*, from 1.27 flag
pub const ARGUMENTS_31: u8 = 42;

// s*, from 1.27 n
pub const SKIPPED_31: u8 = 44;

// flag flag
pub const ARGUMENTS_35: u8 = 46;

// n n
pub const SKIPPED_35: u8 = 48;

// S S*
pub const ARGUMENTS_37: u8 = 52;

// S s*
pub const SKIPPED_37: u8 = 54;

// from 1.23 F
pub const REPLY_38: u8 = 56;

// S* S* S* N N
pub const REPLY_40: u8 = 58;

// flag flag F
pub const ARGUMENTS_44: u8 = 60;

// S F
pub const ARGUMENTS_45: u8 = 62;

// count of s n s, from 1.29 n n n n, from 1.37 flag with n flag with n, from 1.28 p
pub const REPLY_46: u8 = 64;

// S S
pub const ARGUMENTS_47: u8 = 66;

// s s
pub const SKIPPED_47: u8 = 68;

// below 1.22 S*, from 1.22 P
pub const PUBLISHED_ARGUMENTS_30: u8 = 70;

// below 1.22 s*, from 1.22 p
pub const PUBLISHED_SKIPPED_30: u8 = 72;

// S, below 1.31 S
pub const PUBLISHED_ARGUMENTS_42: u8 = 74;

// S, below 1.31 s
pub const PUBLISHED_SKIPPED_42: u8 = 76;
