// The formats of an alert sheet and of a vehicle sheet as the tables that the interpreter goes by: four words to a
// node, parts before the whole.
use formats::kinds;

pub const ALERTS: [u64; 68] = [
    // 0: first byte
    kinds::CONSTANT,
    1,
    0,
    0,
    // 1: nothing
    kinds::EMPTY,
    0,
    0,
    0,
    // 2: header: UTF-8
    kinds::TEXT,
    512,
    3,
    0,
    // 3: header, optional
    kinds::CHOICE,
    1,
    2,
    0,
    // 4: description: UTF-8
    kinds::TEXT,
    2048,
    3,
    0,
    // 5: description, optional
    kinds::CHOICE,
    1,
    4,
    0,
    // 6: cause: UTF-8
    kinds::TEXT,
    64,
    3,
    0,
    // 7: cause, optional
    kinds::CHOICE,
    1,
    6,
    0,
    // 8: id: printable
    kinds::TEXT,
    64,
    1,
    0,
    // 9: ids
    kinds::LIST,
    32,
    8,
    0,
    // 10: routes, stops
    kinds::PAIR,
    9,
    9,
    0,
    // 11: trips and on
    kinds::PAIR,
    9,
    10,
    0,
    // 12: cause and on
    kinds::PAIR,
    7,
    11,
    0,
    // 13: description and on
    kinds::PAIR,
    5,
    12,
    0,
    // 14: AN ALERT: header and on
    kinds::PAIR,
    3,
    13,
    0,
    // 15: alerts
    kinds::LIST,
    256,
    14,
    0,
    // 16: AN ALERT SHEET
    kinds::PAIR,
    0,
    15,
    0,
];

pub const VEHICLES: [u64; 48] = [
    // 0: first byte
    kinds::CONSTANT,
    1,
    0,
    0,
    // 1: id: printable
    kinds::TEXT,
    64,
    1,
    0,
    // 2: nothing
    kinds::EMPTY,
    0,
    0,
    0,
    // 3: trip, optional
    kinds::CHOICE,
    2,
    1,
    0,
    // 4: latitude, longitude
    kinds::FLOAT,
    0,
    0,
    0,
    // 5: updated: a signed number from 0 on, zigzag
    kinds::SIGNED,
    0,
    8204889600,
    0,
    // 6: longitude, updated
    kinds::PAIR,
    4,
    5,
    0,
    // 7: latitude and on
    kinds::PAIR,
    4,
    6,
    0,
    // 8: trip and on
    kinds::PAIR,
    3,
    7,
    0,
    // 9: A VEHICLE: key and on
    kinds::PAIR,
    1,
    8,
    0,
    // 10: vehicles
    kinds::LIST,
    1024,
    9,
    0,
    // 11: A VEHICLE SHEET
    kinds::PAIR,
    0,
    10,
    0,
];

// The nodes of the sheets, and how deep their formats are.
pub const ALERT_SHEET: u64 = 16;

pub const ALERT_DEPTH: u32 = 9;

pub const VEHICLE_SHEET: u64 = 11;

pub const VEHICLE_DEPTH: u32 = 7;
