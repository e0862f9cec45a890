// The records that a message leaves, written: one of the message is made from its entity, an old one copied. How many
// keys count.
#![tactic(auto)]

ghost use Rattle.std.specs.Prelude.{◌≡◌, false, List, ℕ, ◌+◌, ◌-◌, ◌≤◌, ◌<◌, length, take, drop, Some};
ghost use Rattle.basics.specs.Lists.{All};
ghost use Rattle.basics.specs.Options.{maybe};
ghost use Rattle.formats.specs.Number.{groups_w, number_w};
ghost use Rattle.formats.specs.Promises.Number.{top};
ghost use Rattle.formats.specs.Readers.{many_w};
ghost use Rattle.formats.specs.Format.{◌&◌, write};
ghost use Rattle.formats_write.specs.Promises.Adds.{Adds};
ghost use Rattle.formats_write.specs.Promises.Given.{given_number, given_signed, optional_w, text_w};
ghost use Rattle.realtime.specs.Schema.{feed_entity, stop_time_update};
ghost use Rattle.realtime_views.specs.Promises.Views.{PartInside, part_in, view_delay, view_direction, view_event};
ghost use Rattle.realtime_views.specs.Promises.Views.{view_stop, view_time, view_trip};
ghost use Rattle.decode.specs.Record.{bit};
ghost use Rattle.decode.specs.Trip.{number32, stop_update, trip};
ghost use Rattle.decode.specs.Leaves.{count_without_at, has_byte};
ghost use Rattle.decode.specs.Sizes.{most_message, most_updates, updates_length};
ghost use Rattle.decode_slots.specs.Index.{index, slot_key};
ghost use Rattle.decode_slots.specs.Places.{crowded, held, held_at, record_at, update_at};
ghost use Rattle.decode_slots.specs.Promises.Index.{SoundIndex};
ghost use Rattle.decode_slots.specs.Promises.Places.{Readable};
ghost use Rattle.decode_updates.specs.Line.{laid};
ghost use Rattle.decode_updates.specs.Updates.{updates_at};
ghost use Rattle.decode_index.specs.Promises.Message.{Fit};
ghost use Rattle.decode_write.specs.Promises.Slots.{KeyLies, plain_keys};
ghost use Rattle.decode_write.specs.Promises.Written.{TextsLie, event_w, head_w, signed_w, update_of};

use decode::sizes::{BEYOND, KEY_BYTES, UPDATES_LENGTH};
use realtime_views::{Event, StopUpdate, TextPart, Trip};

// A number of at most k + 1 groups, where there is room for them: the next place.
fn add_groups(k: u32, out: &mut [u8], at: usize, n: u64) -> usize
    requires { (n < top k) × (at + k < length out.old) }
    ensures { Adds out.old (Some at) out.new (Some result) (groups_w k n) }
{
    if n < 128 {
        out[at] = n as u8;
        return at + 1;
    }
    out[at] = (128 + n % 128) as u8;
    add_groups(k - 1, out, at + 1, n / 128)
}

// A number of five groups, as times have: no test stands between them.
fn add_five(out: &mut [u8], at: usize, n: u64) -> usize
    requires { (268435456 ≤ n) × (n < 34359738368) × (at + 9 < length out.old) }
    ensures { Adds out.old (Some at) out.new (Some result) (number_w n) }
{
    let a = n / 128;
    let b = a / 128;
    let c = b / 128;
    let d = c / 128;
    out[at] = (128 + n % 128) as u8;
    out[at + 1] = (128 + a % 128) as u8;
    out[at + 2] = (128 + b % 128) as u8;
    out[at + 3] = (128 + c % 128) as u8;
    out[at + 4] = d as u8;
    at + 5
}

// The number at `at`, where there is room for ten bytes.
fn add_number(out: &mut [u8], at: usize, n: u64) -> usize
    requires { at + 9 < length out.old }
    ensures { Adds out.old (Some at) out.new (Some result) (number_w n) }
{
    if n < 128 {
        out[at] = n as u8;
        return at + 1;
    }
    if n < 268435456 {
        return add_groups(9, out, at, n);
    }
    if n < 34359738368 {
        return add_five(out, at, n);
    }
    add_groups(9, out, at, n)
}

// A number takes ten bytes at most: where there are so many, its groups are not tested for room one by one.
fn put_number(out: &mut [u8], w: Option<usize>, n: u64) -> Option<usize>
    ensures { Adds out.old w out.new result (number_w n) }
{
    let at = w?;
    if out.len() < 10 || out.len() - 10 < at {
        return formats_write::number(out, w, n);
    }
    Some(add_number(out, at, n))
}

// A text of s. An absent one is empty.
fn put_text(out: &mut [u8], w: Option<usize>, message: &[u8], t: TextPart) -> Option<usize>
    requires { PartInside (length message.now) t }
    ensures { Adds out.old w out.new result (text_w (part_in message.now t)) }
{
    let q = put_number(out, w, t.len as u64);
    formats_write::stretch(out, q, message, t.start, t.start + t.len)
}

fn put_flag(out: &mut [u8], w: Option<usize>, b: bool) -> Option<usize>
    ensures { Adds out.old w out.new result (number_w (bit b)) }
{
    formats_write::byte(out, w, u8::from(b))
}

fn put_signed(out: &mut [u8], w: Option<usize>, v: Option<i64>) -> Option<usize>
    ensures { Adds out.old w out.new result (optional_w signed_w (given_signed v)) }
{
    match v {
        None => formats_write::byte(out, w, 0),
        Some(z) => {
            let q = formats_write::byte(out, w, 1);
            put_number(out, q, integers::to_zigzag(z))
        }
    }
}

fn put_delay(out: &mut [u8], w: Option<usize>, d: Option<i32>) -> Option<usize>
    ensures { Adds out.old w out.new result (optional_w signed_w (maybe (view_delay d))) }
{
    put_signed(out, w, d.map(i64::from))
}

fn put_direction(out: &mut [u8], w: Option<usize>, d: Option<u32>) -> Option<usize>
    ensures { Adds out.old w out.new result (optional_w number_w (maybe (view_direction d))) }
{
    formats_write::optional_number(out, w, d.map(u64::from))
}

// Delay and time of an arrival or a departure.
fn put_event(out: &mut [u8], w: Option<usize>, e: Event) -> Option<usize>
    ensures { Adds out.old w out.new result (event_w (view_event e)) }
{
    let q = put_delay(out, w, e.delay);
    put_signed(out, q, e.time)
}

// A stop update that was read, at its sequence.
fn put_update(
    out: &mut [u8],
    w: Option<usize>,
    sequence: u32,
    message: &[u8],
    u: StopUpdate,
) -> Option<usize>
    requires { PartInside (length message.now) u.stop }
    ensures { Adds out.old w out.new result
        (write (number32 & stop_update) (sequence, update_of (view_stop message.now u))) }
{
    let w1 = put_number(out, w, u64::from(sequence));
    let w2 = put_text(out, w1, message, u.stop);
    let w3 = put_event(out, w2, u.arrival);
    let w4 = put_event(out, w3, u.departure);
    put_flag(out, w4, u.skipped)
}

// The stop update of the message that stands from `from` up to `to`, at its sequence.
fn write_update(
    out: &mut [u8],
    w: Option<usize>,
    sequence: u32,
    message: &[u8],
    from: usize,
    to: usize,
) -> Option<usize>
    requires { Readable stop_time_update message.now (from, to) }
    ensures { Adds out.old w out.new result
        (write (number32 & stop_update) (sequence, update_at message.now (from, to))) }
{
    let u = realtime_views::stop_of(message, from, to - from);
    put_update(out, w, sequence, message, u)
}

// A trip's record up to its updates: delay, cancelled, start date, route, direction, start time.
fn put_head(out: &mut [u8], w: Option<usize>, message: &[u8], t: Trip) -> Option<usize>
    requires { TextsLie (length message.now) t }
    ensures { Adds out.old w out.new result (head_w (view_trip message.now t)) }
{
    let w1 = put_delay(out, w, t.delay);
    let w2 = put_flag(out, w1, t.cancelled);
    let w3 = put_text(out, w2, message, t.date);
    let w4 = put_text(out, w3, message, t.route);
    let w5 = put_direction(out, w4, t.direction);
    put_text(out, w5, message, t.time)
}

// The updates of the first n lines.
fn put_updates(
    out: &mut [u8],
    w: Option<usize>,
    updates: &[u32],
    n: usize,
    message: &[u8],
) -> Option<usize>
    requires n_le_most_updates { (n ≤ most_updates) × (length updates.now ≡ updates_length) }
    requires all { All (λ x. Readable stop_time_update message.now x.1) (laid n updates.now) }
    ensures { Adds out.old w out.new result
        (many_w (write (number32 & stop_update)) (updates_at message.now (laid n updates.now))) }
{
    let mut q = w;
    for i in 0..n {
        let sequence = updates[3 * i];
        let from = slices::word(updates, 3 * i + 1);
        let to = slices::word(updates, 3 * i + 2);
        q = write_update(out, q, sequence, message, from, to);
    }
    q
}

// The record of the message's entity that stands from `from` up to `to`.
fn write_record(
    out: &mut [u8],
    w: Option<usize>,
    message: &[u8],
    from: usize,
    to: usize,
) -> Option<usize>
    requires message_len_bound { length message.now ≤ most_message }
    requires readable { Readable feed_entity message.now (from, to)
        × (crowded (record_at message.now (from, to)) ≡ false) }
    ensures { Adds out.old w out.new result
        (write trip (record_at message.now (from, to))) }
{
    let len = to - from;
    let mut updates = [0u32; UPDATES_LENGTH];
    let n = decode_updates::updates_of(&mut updates, message, from, len);
    let t = realtime_views::trip_of(message, from, len);
    let w1 = put_head(out, w, message, t);
    let w2 = formats_write::number(out, w1, n as u64);
    put_updates(out, w2, &updates, n, message)
}

// The record at a place: made from the message, or copied from the old overlay.
pub fn write_held(
    out: &mut [u8],
    w: Option<usize>,
    message: &[u8],
    old: &[u8],
    from: usize,
    to: usize,
) -> Option<usize>
    requires message_len_bound { length message.now ≤ most_message }
    requires fit { Fit message.now old.now (from, to)
        × (crowded (held_at message.now old.now (from, to)) ≡ false) }
    ensures { Adds out.old w out.new result
        (write trip (held_at message.now old.now (from, to))) }
{
    if from < BEYOND {
        return write_record(out, w, message, from, to);
    }
    formats_write::stretch(out, w, old, from - BEYOND, to - BEYOND)
}

// Whether '@' is in a text.
fn has_at(text: &[u8]) -> bool
    ensures { result ≡ has_byte 64 text.now }
{
    text.contains(&b'@')
}

// Whether it is in a slot's key.
fn key_has_at(keys: &[u8], marks: &[u32], slot: usize) -> bool
    requires { KeyLies keys.now marks.now slot }
    ensures { result ≡ has_byte 64 (slot_key keys.now marks.now slot) }
{
    let len = slices::word(marks, 3 * slot);
    has_at(slices::part(keys, KEY_BYTES * slot, len))
}

// How many of the first n slots have a key without '@'.
fn count_plain(keys: &[u8], marks: &[u32], order: &[u32], n: usize) -> usize
    requires n_in_bounds { n ≤ length order.now }
    requires all { All (KeyLies keys.now marks.now) (take n order.now) }
    ensures { result ≡ plain_keys (index keys.now marks.now order.now n) }
{
    let mut count: usize = 0;
    for &slot in &order[..n] {
        if !key_has_at(keys, marks, slot as usize) {
            count += 1;
        }
    }
    count
}

// The count of a feed after a message: its keys without '@', the feed's id included.
pub fn count_left(feed: &[u8], keys: &[u8], marks: &[u32], order: &[u32], n: usize) -> usize
    requires { SoundIndex keys.now marks.now order.now n }
    ensures { (s o : List ℕ) → result ≡ count_without_at feed.now
        (held s o (index keys.now marks.now order.now n)) }
{
    if has_at(feed) {
        return 0;
    }
    count_plain(keys, marks, order, n)
}
