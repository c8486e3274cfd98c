// Made by ./tables from crates/layouts/specs and crates/table/specs/Claims.antt: the kinds of answers.

pub const NONE: u8 = 0;

pub const SINGLE_PATH: u8 = 1;

pub const SINGLE_STRING: u8 = 2;

pub const PATH_SET: u8 = 3;

pub const PATH_SET_FLAG: u8 = 4;

pub const PATH_SET_MODE: u8 = 5;

pub const NO_ARGS: u8 = 6;

pub const SET_OPTIONS: u8 = 7;

pub const COLLECT_GARBAGE: u8 = 8;

pub const VERIFY_STORE: u8 = 9;

pub const ADD_PERM_ROOT: u8 = 10;

pub const ADD_SIGNATURES: u8 = 11;

pub const ADD_TEXT_TO_STORE: u8 = 12;

pub const ADD_TO_STORE: u8 = 13;

pub const ADD_MULTIPLE_TO_STORE: u8 = 14;

pub const ADD_BUILD_LOG: u8 = 15;

pub const REGISTER_DRV_OUTPUT: u8 = 16;

pub const QUERY_REALISATION: u8 = 17;

pub const QUERY_SUBSTITUTABLE_PATH_INFO: u8 = 18;

pub const QUERY_SUBSTITUTABLE_PATH_INFOS: u8 = 19;

pub const QUERY_SUBSTITUTABLE_PAIRS: u8 = 20;

pub const REGISTER_DRV_OUTPUT_OLD: u8 = 21;

pub const U64: u8 = 1;

pub const STR: u8 = 2;

pub const PATH_INFO: u8 = 3;

pub const PATH_INFO_OLD: u8 = 4;

pub const NO_PATH_INFO: u8 = 5;

pub const STRING_SET: u8 = 6;

pub const STRING_MAP: u8 = 7;

pub const BYTES_FREED: u8 = 8;

pub const SUBSTITUTABLE_PATH_INFO: u8 = 9;

pub const NO_SUBSTITUTABLE_PATH_INFO: u8 = 10;

pub const MISSING: u8 = 11;

pub const FRAMED: u8 = 12;

pub const EMPTY_TEXT: u8 = 1;

pub const ONE_STRING: u8 = 2;

pub const COUNT_OF_PATHS: u8 = 3;

pub const COUNT_OF_OVERRIDES: u8 = 4;

// ---- the codes of kinds that a version or a flag decides. A lower number is a kind

pub const FIRST_CODE: u8 = 32;

// arguments of 7
pub const FROM_25_ADD_TO_STORE_ELSE_NONE: u8 = 32;

// reply of 7
pub const FROM_25_FROM_16_PATH_INFO_ELSE_PATH_INFO_OLD_ELSE_STR: u8 = 33;

// skipped of 19
pub const FROM_12_COUNT_OF_OVERRIDES_ELSE_EMPTY_TEXT: u8 = 34;

// reply of 21
pub const IF_THERE_SUBSTITUTABLE_PATH_INFO_ELSE_NO_SUBSTITUTABLE_PATH_INFO: u8 = 35;

// reply of 26
pub const IF_THERE_FROM_16_PATH_INFO_ELSE_PATH_INFO_OLD_ELSE_NO_PATH_INFO: u8 = 36;

// reply of 38
pub const FROM_23_FRAMED_ELSE_NONE: u8 = 37;

// arguments of 30 in published mode
pub const DECIDED_38: u8 = 38;

// arguments of 42 in published mode
pub const FROM_31_REGISTER_DRV_OUTPUT_ELSE_REGISTER_DRV_OUTPUT_OLD: u8 = 39;
