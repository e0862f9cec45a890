// The form of a script as the table that the interpreter goes by: four words to a node, parts before the whole.
use formats::kinds;

const MOST: u64 = 18446744073709551615;

pub const FORMS: [u64; 44] = [
    // 0: kind
    kinds::SMALL,
    5,
    0,
    0,
    // 1: feed id; message, sheet or card: any bytes
    kinds::TEXT,
    MOST,
    0,
    0,
    // 2: clock
    kinds::SIGNED,
    MOST,
    18446744073709551614,
    0,
    // 3: a length
    kinds::NUMBER,
    0,
    MOST,
    0,
    // 4: lengths
    kinds::LIST,
    MOST,
    3,
    0,
    // 5: output, working buffers
    kinds::PAIR,
    3,
    4,
    0,
    // 6: from the clock on
    kinds::PAIR,
    2,
    5,
    0,
    // 7: from the message on
    kinds::PAIR,
    1,
    6,
    0,
    // 8: from the feed id on
    kinds::PAIR,
    1,
    7,
    0,
    // 9: a call
    kinds::PAIR,
    0,
    8,
    0,
    // 10: a script
    kinds::LIST,
    MOST,
    9,
    0,
];

pub const LENGTH: u64 = 3;

pub const LENGTHS: u64 = 4;

pub const CALL: u64 = 9;

pub const SCRIPT: u64 = 10;

// Levels of the deepest.
pub const DEPTH: u32 = 9;
