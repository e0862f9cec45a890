// The trips that a message leaves, written: keys and records in the order of the keys.
#![tactic(auto)]

ghost use Rattle.std.specs.Prelude.{◌≡◌, false, ◌≤◌, length, take};
ghost use Rattle.basics.specs.Lists.{All};
ghost use Rattle.formats.specs.Readers.{many_w};
ghost use Rattle.formats.specs.Format.{list, write};
ghost use Rattle.formats_write.specs.Promises.Adds.{Adds};
ghost use Rattle.decode.specs.Trip.{trip, trip_entry};
ghost use Rattle.decode.specs.Sizes.{most_message, most_trips};
ghost use Rattle.decode_slots.specs.Index.{index};
ghost use Rattle.decode_slots.specs.Places.{crowded, held, held_at};
ghost use Rattle.decode_index.specs.Promises.Message.{Fit};
ghost use Rattle.decode_write.specs.Promises.Slots.{GoodSlot, Writable};
ghost use Rattle.decode_trips.specs.Promises.Again.{place_of, Ready, IsLast, Again, EntryPut};

use decode::sizes::KEY_BYTES;

// The record that was written last: its place in the index, and from where to where it stands in the output.
#[derive(Clone, Copy)]
struct Last {
    from: usize,
    to: usize,
    start: usize,
    end: usize,
}

// The longest record that is copied.
const MOST_COPIED: usize = 1024;

impl Last {
    // Whether the record of a place was written last, and is short.
    fn is(self, from: usize, to: usize) -> bool
        ensures { IsLast self from to result }
    {
        from == self.from && to == self.to && self.end.saturating_sub(self.start) <= MOST_COPIED
    }
}

// What stands in the output from `from` up to `to`, once more: through a local array.
fn again(out: &mut [u8], w: Option<usize>, from: usize, to: usize) -> Option<usize>
    ensures { Again out.old w out.new result from to }
{
    let at = w?;
    if to < from || out.len() < to {
        return None;
    }
    let n = to - from;
    if MOST_COPIED < n || out.len() < at || out.len() - at < n {
        return None;
    }
    let mut block = [0u8; MOST_COPIED];
    slices::copy(&mut block, 0, &out[from..to]);
    slices::copy(out, at, &block[..n]);
    Some(at + n)
}

// The record at a place, copied where it was written last: a dated trip has two keys, one after the other as a rule.
fn write_next(
    out: &mut [u8],
    w: Option<usize>,
    message: &[u8],
    old: &[u8],
    from: usize,
    to: usize,
    last: Last,
) -> Option<usize>
    requires message_len_bound { length message.now ≤ most_message }
    requires fit { Fit message.now old.now (from, to)
        × (crowded (held_at message.now old.now (from, to)) ≡ false) }
    requires ready { Ready message.now old.now out.old w last }
    ensures { Adds out.old w out.new result
        (write trip (held_at message.now old.now (from, to))) }
{
    if last.is(from, to) {
        return again(out, w, last.start, last.end);
    }
    decode_write::write_held(out, w, message, old, from, to)
}

// The next place, and what was written last.
#[derive(Drop)]
struct Entered {
    put: Option<usize>,
    last: Last,
}

// A slot's key and record.
fn write_entry(
    out: &mut [u8],
    w: Option<usize>,
    keys: &[u8],
    marks: &[u32],
    slot: usize,
    message: &[u8],
    old: &[u8],
    last: Last,
) -> Entered
    requires message_len_bound { length message.now ≤ most_message }
    requires good_slot { GoodSlot message.now old.now keys.now marks.now slot }
    requires ready { Ready message.now old.now out.old w last }
    ensures { EntryPut message.now old.now keys.now marks.now slot
        out.old w out.new result }
{
    let key = KEY_BYTES * slot;
    let len = slices::word(marks, 3 * slot);
    let from = slices::word(marks, 3 * slot + 1);
    let to = slices::word(marks, 3 * slot + 2);
    let q = formats_write::text(out, w, keys, key, key + len);
    let r = write_next(out, q, message, old, from, to, last);
    let start = q.unwrap_or(0);
    let end = r.unwrap_or(0);
    Entered {
        put: r,
        last: Last {
            from,
            to,
            start,
            end,
        },
    }
}

// The keys and records of the first n slots, in the order of the keys.
fn put_entries(
    out: &mut [u8],
    w: Option<usize>,
    keys: &[u8],
    marks: &[u32],
    order: &[u32],
    n: usize,
    message: &[u8],
    old: &[u8],
) -> Option<usize>
    requires message_len_bound { length message.now ≤ most_message }
    requires n_in_bounds { n ≤ length order.now }
    requires all { All (GoodSlot message.now old.now keys.now marks.now) (take n order.now) }
    ensures { Adds out.old w out.new result
        (many_w (write trip_entry) (held message.now old.now
        (index keys.now marks.now order.now n))) }
{
    let at = w?;
    if out.len() < at {
        return None;
    }
    let mut q = w;
    let mut last = Last {
        from: 1,
        to: 0,
        start: 0,
        end: 0,
    };
    for &slot in &order[..n] {
        let entered = write_entry(out, q, keys, marks, slot as usize, message, old, last);
        q = entered.put;
        last = entered.last;
    }
    q
}

// The trips that an index holds.
pub fn write_trips(
    out: &mut [u8],
    w: Option<usize>,
    keys: &[u8],
    marks: &[u32],
    order: &[u32],
    n: usize,
    message: &[u8],
    old: &[u8],
) -> Option<usize>
    requires message_len_bound { length message.now ≤ most_message }
    requires writable { Writable message.now old.now keys.now marks.now order.now n }
    ensures { Adds out.old w out.new result
        (write (list most_trips trip_entry) (held message.now old.now
        (index keys.now marks.now order.now n))) }
{
    let q = formats_write::number(out, w, n as u64);
    put_entries(out, q, keys, marks, order, n, message, old)
}
