// How large a feed's trips may be, and how long the lent slices are in which a message's trips are worked out.

// The trips of a feed, and the updates of a trip.
pub const MOST_TRIPS: usize = 2048;

pub const MOST_UPDATES: usize = 128;

// The bytes of a key: a slot of `keys` has room for one.
pub const KEY_BYTES: usize = 137;

// The bytes of a feed's id, and of a message.
pub const MOST_FEED: usize = 16;

pub const MOST_MESSAGE: usize = 1048576;

// The slots of the index are one more than a feed may have trips: a key in `keys`, three words in `marks`, one in
// `order`.
pub const KEYS_LENGTH: usize = 280713;

pub const MARKS_LENGTH: usize = 6147;

pub const ORDER_LENGTH: usize = 2049;

// The lines of `updates` are one more than a trip may have, of three words each.
pub const UPDATES_LENGTH: usize = 387;

// A place of the index from here on is one of the old overlay's bytes: a message has none there.
pub const BEYOND: usize = 1048577;

// The bytes of the old overlay, so that a place of it fits 32 bits.
pub const MOST_OLD: usize = 4000000000;
