// Made by ./tables from crates/layouts/specs and crates/table/specs/Claims.antt: the operations as one constant table, and those that published mode has in place of some.
use table::{Row, kinds as kind, places as layout};

pub const COUNT: usize = 37;

pub const OPERATIONS: [Row; COUNT] = [
    // 1. Arguments: S. Reply: N
    Row {
        number: 1,
        arguments: layout::A_STRING,
        skipped: layout::A_STRING,
        reply: layout::A_NUMBER,
        arguments_kind: kind::SINGLE_PATH,
        skipped_kind: kind::ONE_STRING,
        reply_kind: kind::U64,
    },
    // 6. Arguments: S. Reply: S*
    Row {
        number: 6,
        arguments: layout::A_STRING,
        skipped: layout::A_STRING,
        reply: layout::A_SET,
        arguments_kind: kind::SINGLE_PATH,
        skipped_kind: kind::ONE_STRING,
        reply_kind: kind::STRING_SET,
    },
    // 7. Arguments: from 1.25 S S S* flag F. Reply: below 1.25 S, from 1.25 S without entry S S S* N N flag S* S
    Row {
        number: 7,
        arguments: layout::ARGUMENTS_7,
        skipped: layout::SKIPPED_7,
        reply: layout::REPLY_7,
        arguments_kind: kind::FROM_25_ADD_TO_STORE_ELSE_NONE,
        skipped_kind: kind::ONE_STRING,
        reply_kind: kind::FROM_25_FROM_16_PATH_INFO_ELSE_PATH_INFO_OLD_ELSE_STR,
    },
    // 8. Arguments: S S S*. Reply: S
    Row {
        number: 8,
        arguments: layout::ARGUMENTS_8,
        skipped: layout::SKIPPED_8,
        reply: layout::A_STRING,
        arguments_kind: kind::ADD_TEXT_TO_STORE,
        skipped_kind: kind::EMPTY_TEXT,
        reply_kind: kind::STR,
    },
    // 9. Arguments: S* N. Reply: N
    Row {
        number: 9,
        arguments: layout::ARGUMENTS_9,
        skipped: layout::SKIPPED_9,
        reply: layout::A_NUMBER,
        arguments_kind: kind::PATH_SET_MODE,
        skipped_kind: kind::COUNT_OF_PATHS,
        reply_kind: kind::U64,
    },
    // 10. Arguments: S. Reply: N
    Row {
        number: 10,
        arguments: layout::A_STRING,
        skipped: layout::A_STRING,
        reply: layout::A_NUMBER,
        arguments_kind: kind::SINGLE_PATH,
        skipped_kind: kind::ONE_STRING,
        reply_kind: kind::U64,
    },
    // 11. Arguments: S. Reply: N
    Row {
        number: 11,
        arguments: layout::A_STRING,
        skipped: layout::A_STRING,
        reply: layout::A_NUMBER,
        arguments_kind: kind::SINGLE_PATH,
        skipped_kind: kind::ONE_STRING,
        reply_kind: kind::U64,
    },
    // 12. Arguments: S. Reply: N
    Row {
        number: 12,
        arguments: layout::A_STRING,
        skipped: layout::A_STRING,
        reply: layout::A_NUMBER,
        arguments_kind: kind::SINGLE_STRING,
        skipped_kind: kind::ONE_STRING,
        reply_kind: kind::U64,
    },
    // 13. Arguments: nothing. Reply: N
    Row {
        number: 13,
        arguments: layout::NO_FIELDS,
        skipped: layout::NO_FIELDS,
        reply: layout::A_NUMBER,
        arguments_kind: kind::NO_ARGS,
        skipped_kind: kind::EMPTY_TEXT,
        reply_kind: kind::U64,
    },
    // 14. Arguments: nothing. Reply: P
    Row {
        number: 14,
        arguments: layout::NO_FIELDS,
        skipped: layout::NO_FIELDS,
        reply: layout::A_MAP,
        arguments_kind: kind::NO_ARGS,
        skipped_kind: kind::EMPTY_TEXT,
        reply_kind: kind::STRING_MAP,
    },
    // 18. Arguments: S. Reply: S
    Row {
        number: 18,
        arguments: layout::A_STRING,
        skipped: layout::A_STRING,
        reply: layout::A_STRING,
        arguments_kind: kind::SINGLE_PATH,
        skipped_kind: kind::ONE_STRING,
        reply_kind: kind::STR,
    },
    // 19. Arguments: N N N N N N N N N N, from 1.10 N, from 1.12 N P. Reply: nothing
    Row {
        number: 19,
        arguments: layout::OPTIONS,
        skipped: layout::SKIPPED_19,
        reply: layout::NO_GROUPS,
        arguments_kind: kind::SET_OPTIONS,
        skipped_kind: kind::FROM_12_COUNT_OF_OVERRIDES_ELSE_EMPTY_TEXT,
        reply_kind: kind::NONE,
    },
    // 20. Arguments: N S* N N n n n. Reply: N n n
    Row {
        number: 20,
        arguments: layout::ARGUMENTS_20,
        skipped: layout::SKIPPED_20,
        reply: layout::REPLY_20,
        arguments_kind: kind::COLLECT_GARBAGE,
        skipped_kind: kind::EMPTY_TEXT,
        reply_kind: kind::BYTES_FREED,
    },
    // 21. Arguments: S. Reply: flag, if true S S* N N
    Row {
        number: 21,
        arguments: layout::A_STRING,
        skipped: layout::A_STRING,
        reply: layout::REPLY_21,
        arguments_kind: kind::QUERY_SUBSTITUTABLE_PATH_INFO,
        skipped_kind: kind::ONE_STRING,
        reply_kind: kind::IF_THERE_SUBSTITUTABLE_PATH_INFO_ELSE_NO_SUBSTITUTABLE_PATH_INFO,
    },
    // 22. Arguments: S. Reply: S*
    Row {
        number: 22,
        arguments: layout::A_STRING,
        skipped: layout::A_STRING,
        reply: layout::A_SET,
        arguments_kind: kind::SINGLE_PATH,
        skipped_kind: kind::ONE_STRING,
        reply_kind: kind::STRING_SET,
    },
    // 23. Arguments: nothing. Reply: S*
    Row {
        number: 23,
        arguments: layout::NO_FIELDS,
        skipped: layout::NO_FIELDS,
        reply: layout::A_SET,
        arguments_kind: kind::NO_ARGS,
        skipped_kind: kind::EMPTY_TEXT,
        reply_kind: kind::STRING_SET,
    },
    // 26. Arguments: S. Reply: flag, if true S S S* N N, from 1.16 flag S* S
    Row {
        number: 26,
        arguments: layout::A_STRING,
        skipped: layout::A_STRING,
        reply: layout::REPLY_26,
        arguments_kind: kind::SINGLE_PATH,
        skipped_kind: kind::ONE_STRING,
        reply_kind: kind::IF_THERE_FROM_16_PATH_INFO_ELSE_PATH_INFO_OLD_ELSE_NO_PATH_INFO,
    },
    // 28. Arguments: S. Reply: S*
    Row {
        number: 28,
        arguments: layout::A_STRING,
        skipped: layout::A_STRING,
        reply: layout::A_SET,
        arguments_kind: kind::SINGLE_PATH,
        skipped_kind: kind::ONE_STRING,
        reply_kind: kind::STRING_SET,
    },
    // 29. Arguments: S. Reply: S
    Row {
        number: 29,
        arguments: layout::A_STRING,
        skipped: layout::A_STRING,
        reply: layout::A_STRING,
        arguments_kind: kind::SINGLE_STRING,
        skipped_kind: kind::ONE_STRING,
        reply_kind: kind::STR,
    },
    // 30. Arguments: S*. Reply: count of S S s* n n
    Row {
        number: 30,
        arguments: layout::A_SET,
        skipped: layout::SKIPPED_30,
        reply: layout::SUBSTITUTES,
        arguments_kind: kind::QUERY_SUBSTITUTABLE_PATH_INFOS,
        skipped_kind: kind::COUNT_OF_PATHS,
        reply_kind: kind::STRING_MAP,
    },
    // 31. Arguments: S*, from 1.27 flag. Reply: S*
    Row {
        number: 31,
        arguments: layout::ARGUMENTS_31,
        skipped: layout::SKIPPED_31,
        reply: layout::A_SET,
        arguments_kind: kind::PATH_SET_FLAG,
        skipped_kind: kind::COUNT_OF_PATHS,
        reply_kind: kind::STRING_SET,
    },
    // 32. Arguments: S*. Reply: S*
    Row {
        number: 32,
        arguments: layout::A_SET,
        skipped: layout::SKIPPED_30,
        reply: layout::A_SET,
        arguments_kind: kind::PATH_SET,
        skipped_kind: kind::COUNT_OF_PATHS,
        reply_kind: kind::STRING_SET,
    },
    // 33. Arguments: S. Reply: S*
    Row {
        number: 33,
        arguments: layout::A_STRING,
        skipped: layout::A_STRING,
        reply: layout::A_SET,
        arguments_kind: kind::SINGLE_PATH,
        skipped_kind: kind::ONE_STRING,
        reply_kind: kind::STRING_SET,
    },
    // 34. Arguments: nothing. Reply: N
    Row {
        number: 34,
        arguments: layout::NO_FIELDS,
        skipped: layout::NO_FIELDS,
        reply: layout::A_NUMBER,
        arguments_kind: kind::NO_ARGS,
        skipped_kind: kind::EMPTY_TEXT,
        reply_kind: kind::U64,
    },
    // 35. Arguments: flag flag. Reply: N
    Row {
        number: 35,
        arguments: layout::ARGUMENTS_35,
        skipped: layout::SKIPPED_35,
        reply: layout::A_NUMBER,
        arguments_kind: kind::VERIFY_STORE,
        skipped_kind: kind::EMPTY_TEXT,
        reply_kind: kind::U64,
    },
    // 36. Arguments: nothing. Reply: n s, from 1.29 n n n n, from 1.37 flag with n flag with n, from 1.28 p
    Row {
        number: 36,
        arguments: layout::NO_FIELDS,
        skipped: layout::NO_FIELDS,
        reply: layout::BUILD_RESULT,
        arguments_kind: kind::NONE,
        skipped_kind: kind::NONE,
        reply_kind: kind::NONE,
    },
    // 37. Arguments: S S*. Reply: N
    Row {
        number: 37,
        arguments: layout::ARGUMENTS_37,
        skipped: layout::SKIPPED_37,
        reply: layout::A_NUMBER,
        arguments_kind: kind::ADD_SIGNATURES,
        skipped_kind: kind::ONE_STRING,
        reply_kind: kind::U64,
    },
    // 38. Arguments: S. Reply: from 1.23 F
    Row {
        number: 38,
        arguments: layout::A_STRING,
        skipped: layout::A_STRING,
        reply: layout::REPLY_38,
        arguments_kind: kind::SINGLE_PATH,
        skipped_kind: kind::ONE_STRING,
        reply_kind: kind::FROM_23_FRAMED_ELSE_NONE,
    },
    // 39. Arguments: nothing. Reply: nothing
    Row {
        number: 39,
        arguments: layout::NO_FIELDS,
        skipped: layout::NO_FIELDS,
        reply: layout::NO_GROUPS,
        arguments_kind: kind::NONE,
        skipped_kind: kind::NONE,
        reply_kind: kind::NONE,
    },
    // 40. Arguments: S*. Reply: S* S* S* N N
    Row {
        number: 40,
        arguments: layout::A_SET,
        skipped: layout::SKIPPED_30,
        reply: layout::REPLY_40,
        arguments_kind: kind::PATH_SET,
        skipped_kind: kind::COUNT_OF_PATHS,
        reply_kind: kind::MISSING,
    },
    // 41. Arguments: S. Reply: P
    Row {
        number: 41,
        arguments: layout::A_STRING,
        skipped: layout::A_STRING,
        reply: layout::A_MAP,
        arguments_kind: kind::SINGLE_PATH,
        skipped_kind: kind::ONE_STRING,
        reply_kind: kind::STRING_MAP,
    },
    // 42. Arguments: S. Reply: nothing
    Row {
        number: 42,
        arguments: layout::A_STRING,
        skipped: layout::A_STRING,
        reply: layout::NO_GROUPS,
        arguments_kind: kind::REGISTER_DRV_OUTPUT,
        skipped_kind: kind::ONE_STRING,
        reply_kind: kind::NONE,
    },
    // 43. Arguments: S. Reply: S*
    Row {
        number: 43,
        arguments: layout::A_STRING,
        skipped: layout::A_STRING,
        reply: layout::A_SET,
        arguments_kind: kind::QUERY_REALISATION,
        skipped_kind: kind::ONE_STRING,
        reply_kind: kind::STRING_SET,
    },
    // 44. Arguments: flag flag F. Reply: nothing
    Row {
        number: 44,
        arguments: layout::ARGUMENTS_44,
        skipped: layout::SKIPPED_35,
        reply: layout::NO_GROUPS,
        arguments_kind: kind::ADD_MULTIPLE_TO_STORE,
        skipped_kind: kind::EMPTY_TEXT,
        reply_kind: kind::NONE,
    },
    // 45. Arguments: S F. Reply: N
    Row {
        number: 45,
        arguments: layout::ARGUMENTS_45,
        skipped: layout::A_STRING,
        reply: layout::A_NUMBER,
        arguments_kind: kind::ADD_BUILD_LOG,
        skipped_kind: kind::ONE_STRING,
        reply_kind: kind::U64,
    },
    // 46. Arguments: S* N. Reply: count of s n s, from 1.29 n n n n, from 1.37 flag with n flag with n, from 1.28 p
    Row {
        number: 46,
        arguments: layout::ARGUMENTS_9,
        skipped: layout::SKIPPED_9,
        reply: layout::REPLY_46,
        arguments_kind: kind::PATH_SET_MODE,
        skipped_kind: kind::COUNT_OF_PATHS,
        reply_kind: kind::NONE,
    },
    // 47. Arguments: S S. Reply: S
    Row {
        number: 47,
        arguments: layout::ARGUMENTS_47,
        skipped: layout::SKIPPED_47,
        reply: layout::A_STRING,
        arguments_kind: kind::ADD_PERM_ROOT,
        skipped_kind: kind::EMPTY_TEXT,
        reply_kind: kind::STR,
    },
];

pub const PUBLISHED_COUNT: usize = 2;

pub const PUBLISHED: [Row; PUBLISHED_COUNT] = [
    // 30. Arguments: below 1.22 S*, from 1.22 P. Reply: count of S S s* n n
    Row {
        number: 30,
        arguments: layout::PUBLISHED_ARGUMENTS_30,
        skipped: layout::PUBLISHED_SKIPPED_30,
        reply: layout::SUBSTITUTES,
        arguments_kind: kind::DECIDED_38,
        skipped_kind: kind::COUNT_OF_PATHS,
        reply_kind: kind::STRING_MAP,
    },
    // 42. Arguments: S, below 1.31 S. Reply: nothing
    Row {
        number: 42,
        arguments: layout::PUBLISHED_ARGUMENTS_42,
        skipped: layout::PUBLISHED_SKIPPED_42,
        reply: layout::NO_GROUPS,
        arguments_kind: kind::FROM_31_REGISTER_DRV_OUTPUT_ELSE_REGISTER_DRV_OUTPUT_OLD,
        skipped_kind: kind::ONE_STRING,
        reply_kind: kind::NONE,
    },
];
