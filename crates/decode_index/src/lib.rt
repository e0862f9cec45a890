// The index of what a message leaves of a feed's trips: every entity's keys, in order.
#![tactic(auto)]

ghost use Rattle.std.specs.Prelude.{◌≤◌, length};
ghost use Rattle.decode.specs.Sizes.{most_feed, most_message};
ghost use Rattle.decode_slots.specs.Index.{index};
ghost use Rattle.decode_slots.specs.Promises.Index.{Open, Lent};
ghost use Rattle.decode_old.specs.Promises.Old.{Stands};
ghost use Rattle.decode_index.specs.Promises.Message.{JudgedMessage, Indexed};
ghost use Rattle.decode_index.specs.Promises.Leaving.{Old, Begun, Leaves};

use decode::sizes::MOST_TRIPS;
use decode_old::Passed;
use realtime_views::Item;

// The entities of a message are applied one after the other: how many keys there are then. Above 2,048 the rest is not
// looked at.
pub fn apply_entities(
    keys: &mut [u8],
    marks: &mut [u32],
    order: &mut [u32],
    n: usize,
    feed: &[u8],
    message: &[u8],
) -> usize
    requires fact { Open keys.old marks.old order.old n }
    requires feed_len_bound { (length feed.now ≤ most_feed) × (length message.now ≤ most_message) }
    requires judged_message { JudgedMessage message.now }
    ensures { Indexed feed.now message.now
        (index keys.old marks.old order.old n)
        keys.new marks.new order.new result }
{
    let mut walk = realtime_views::entities(message);
    let mut m = n;
    while let Item::At {
        start: at,
        len,
        walk: rest,
    } = realtime_views::next_entity(message, walk)
    {
        m = decode_keys::apply(keys, marks, order, m, feed, message, at, len);
        if m > MOST_TRIPS {
            return m;
        }
        walk = rest;
    }
    m
}

// What a message may not leave: more than 2,048 trips, or a record with more than 128 updates.
#[derive(Clone, Copy, PartialEq, Eq)]
pub enum TooMany {
    Trips,
    Updates,
}

// The index before the entities: the old trips where the message says what has changed, else none.
fn begin(
    keys: &mut [u8],
    marks: &mut [u32],
    order: &mut [u32],
    differential: bool,
    old: &[u8],
    at: usize,
) -> Passed
    requires lent { Lent keys.old marks.old order.old }
    requires stands { Stands old.now at }
    ensures { Begun old.now at differential
        keys.new marks.new order.new result.slots result.next }
{
    if differential {
        return decode_old::join(keys, marks, order, old, at);
    }
    Passed {
        slots: 0,
        next: decode_skip::past_trips(old, at),
    }
}

// What a judged message leaves of a feed's trips, the old ones of which stand in `old` at `at`: how many slots of the
// index are in use, and the place past the old trips.
pub fn leave(
    keys: &mut [u8],
    marks: &mut [u32],
    order: &mut [u32],
    feed: &[u8],
    message: &[u8],
    old: &[u8],
    at: usize,
) -> Result<(usize, usize), TooMany>
    requires lent { Lent keys.old marks.old order.old }
    requires feed_len_bound { (length feed.now ≤ most_feed) × (length message.now ≤ most_message) }
    requires judged_message { JudgedMessage message.now }
    requires old { Old old.now at }
    ensures { Leaves feed.now message.now old.now at
        keys.new marks.new order.new result }
{
    let h = realtime_views::header_of(message);
    let begun = begin(keys, marks, order, h.differential, old, at);
    let m = apply_entities(keys, marks, order, begun.slots, feed, message);
    if m > MOST_TRIPS {
        return Err(TooMany::Trips);
    }
    if decode_updates::any_crowded(marks, order, m, message) {
        return Err(TooMany::Updates);
    }
    Ok((m, begun.next))
}
