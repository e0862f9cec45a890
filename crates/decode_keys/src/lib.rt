// The keys of an entity go into the index, with the place of the entity.
#![tactic(auto)]

ghost use Rattle.std.specs.Prelude.{◌+◌, ◌≤◌, ◌++◌, length, take, drop};
ghost use Rattle.realtime_views.specs.Promises.Views.{part_in, view_direction};
ghost use Rattle.decode.specs.Key.{dated_key, head_of, tail_of};
ghost use Rattle.basics.specs.Options.{maybe};
ghost use Rattle.decode.specs.Promises.Keyed.{Short};
ghost use Rattle.decode.specs.Sizes.{key_bytes, most_feed, most_message};
ghost use Rattle.decode_slots.specs.Promises.Index.{Open};
ghost use Rattle.decode_keys.specs.Promises.Entity.{Filed, Entered, FineEntity, Applies};

use decode::sizes::MOST_TRIPS;
use realtime_views::Trip;

// A key that stands in s goes into the index with its place.
pub fn file_key(
    keys: &mut [u8],
    marks: &mut [u32],
    order: &mut [u32],
    n: usize,
    message: &[u8],
    start: usize,
    len: usize,
    from: u32,
    to: u32,
) -> usize
    requires fact { Open keys.old marks.old order.old n }
    requires len_in_bounds { (start + len ≤ length message.now) × (len ≤ key_bytes) }
    ensures { Filed keys.old marks.old order.old n
        (take len (drop start message.now)) from to
        keys.new marks.new order.new result }
{
    let long = decode::write_key(keys, n, message, start, len);
    decode_slots::settle(keys, marks, order, n, long, from, to)
}

// Every key of an entity goes into the index with its place, the dated one before its base.
fn file_trip(
    keys: &mut [u8],
    marks: &mut [u32],
    order: &mut [u32],
    n: usize,
    feed: &[u8],
    message: &[u8],
    t: Trip,
    from: u32,
    to: u32,
) -> usize
    requires fact { Open keys.old marks.old order.old n }
    requires feed_len_bound { length feed.now ≤ most_feed }
    requires short { Short message.now t }
    ensures { Entered feed.now message.now t from to
        keys.old marks.old order.old n
        keys.new marks.new order.new result }
{
    if t.id.len == 0 {
        if t.route.len == 0 {
            return n;
        }
        let len = decode::write_incomplete(keys, n, feed, message, t);
        return decode_slots::settle(keys, marks, order, n, len, from, to);
    }
    if t.date.len == 0 {
        return file_key(
            keys, marks, order, n, message, t.id.start, t.id.len, from, to,
        );
    }
    let len = decode::write_dated(keys, n, message, t);
    let m = decode_slots::settle(keys, marks, order, n, len, from, to);
    if m > MOST_TRIPS {
        return m;
    }
    file_key(
        keys, marks, order, m, message, t.id.start, t.id.len, from, to,
    )
}

// An entity is applied: its keys go into the index with its place; a deleted one is passed over.
pub fn apply(
    keys: &mut [u8],
    marks: &mut [u32],
    order: &mut [u32],
    n: usize,
    feed: &[u8],
    message: &[u8],
    start: usize,
    len: usize,
) -> usize
    requires fact { Open keys.old marks.old order.old n }
    requires feed_len_bound { length feed.now ≤ most_feed }
    requires len_in_bounds { (start + len ≤ length message.now) × (length message.now ≤ most_message) }
    requires fine_entity { FineEntity message.now start len }
    ensures { Applies feed.now message.now start len
        keys.old marks.old order.old n
        keys.new marks.new order.new result }
{
    if realtime_views::is_deleted(message, start, len) {
        return n;
    }
    let t = realtime_views::trip_of(message, start, len);
    let end = start + len;
    file_trip(
        keys,
        marks,
        order,
        n,
        feed,
        message,
        t,
        start as u32,
        end as u32,
    )
}
