// The format of a feed's old trips as the table that the interpreter goes by: four words to a node, its kind and what
// it is made of, parts before the whole. `..` stands for the node before.
pub const TRIPS: [u64; 104] = [
    // 0 nothing
    1, 0, 0, 0,
    // 1 delay: a signed number, zigzag
    3, 4294967295, 4294967294, 0,
    // 2 optional delay
    9, 0, 1, 0,
    // 3 a flag
    4, 1, 0, 0,
    // 4 a text of 16: start date, start time
    5, 16, 1, 0,
    // 5 a text of 64: an id
    5, 64, 1, 0,
    // 6 a number of 32 bits
    2, 0, 4294967295, 0,
    // 7 optional number of 32 bits
    9, 0, 6, 0,
    // 8 instant: a signed number from 0 on, zigzag
    3, 0, 8204889600, 0,
    // 9 optional instant
    9, 0, 8, 0,
    // 10 departure time, skipped
    10, 9, 3, 0,
    // 11 departure delay, ..
    10, 2, 10, 0,
    // 12 arrival time, ..
    10, 9, 11, 0,
    // 13 arrival delay, ..
    10, 2, 12, 0,
    // 14 A STOP UPDATE: stop id, ..
    10, 5, 13, 0,
    // 15 sequence, stop update
    10, 6, 14, 0,
    // 16 updates: a list of at most 128
    8, 128, 15, 0,
    // 17 start time, updates
    10, 4, 16, 0,
    // 18 direction, ..
    10, 7, 17, 0,
    // 19 route, ..
    10, 5, 18, 0,
    // 20 start date, ..
    10, 4, 19, 0,
    // 21 cancelled, ..
    10, 3, 20, 0,
    // 22 A TRIP: delay, ..
    10, 2, 21, 0,
    // 23 a text of 137: the rest of a key
    5, 137, 1, 0,
    // 24 AN ENTRY: key, trip
    10, 23, 22, 0,
    // 25 TRIPS: a list of at most 2,048
    8, 2048, 24, 0,
];

// The node of the list, and how deep the format is.
pub const LIST: u64 = 25;

pub const DEPTH: u32 = 17;
