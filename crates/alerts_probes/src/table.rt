// The format of an alert as the table that the interpreter goes by: four words to a node, parts before the whole.
use formats::kinds;

pub const ALERT: [u64; 56] = [
    // 0: nothing
    kinds::EMPTY,
    0,
    0,
    0,
    // 1: header: UTF-8
    kinds::TEXT,
    512,
    3,
    0,
    // 2: header, optional
    kinds::CHOICE,
    0,
    1,
    0,
    // 3: description: UTF-8
    kinds::TEXT,
    2048,
    3,
    0,
    // 4: description, optional
    kinds::CHOICE,
    0,
    3,
    0,
    // 5: cause: UTF-8
    kinds::TEXT,
    64,
    3,
    0,
    // 6: cause, optional
    kinds::CHOICE,
    0,
    5,
    0,
    // 7: id: printable
    kinds::TEXT,
    64,
    1,
    0,
    // 8: ids
    kinds::LIST,
    32,
    7,
    0,
    // 9: routes, stops
    kinds::PAIR,
    8,
    8,
    0,
    // 10: trips and on
    kinds::PAIR,
    8,
    9,
    0,
    // 11: cause and on
    kinds::PAIR,
    6,
    10,
    0,
    // 12: description and on
    kinds::PAIR,
    4,
    11,
    0,
    // 13: AN ALERT: header and on
    kinds::PAIR,
    2,
    12,
    0,
];

pub const ALERT_DEPTH: u32 = 7;

pub const AN_ALERT: u64 = 13;
