// The keys of an entity, written into their slots.
#![tactic(auto)]

pub mod sizes; // how large things may be

ghost use Rattle.std.specs.Prelude.{◌≡◌, ◌+◌, ◌*◌, ◌≤◌, ◌<◌, [], ◌∷◌, ◌++◌, length, take, drop};
ghost use Rattle.decode.specs.Key.{decimal_of, dated_key, prefixed, direction_text, head_of, tail_of};
ghost use Rattle.realtime_views.specs.Promises.Views.{part_in, PartInside, view_direction};
ghost use Rattle.basics.specs.Options.{maybe};
ghost use Rattle.decode.specs.Sizes.{key_bytes, most_feed, most_id, most_date, most_time};
ghost use Rattle.decode.specs.Promises.Written.{Added};
ghost use Rattle.decode.specs.Promises.Keyed.{Room, Short, Keyed};

use realtime_views::{TextPart, Trip};
use sizes::KEY_BYTES;

// All of x goes in at `at`.
fn add(out: &mut [u8], at: usize, x: &[u8]) -> usize
    requires { at + length x.now ≤ length out.old }
    ensures { Added out.old at x.now out.new result }
{
    let n = x.len();
    slices::copy(out, at, x);
    at + n
}

fn add_byte(out: &mut [u8], at: usize, b: u8) -> usize
    requires { at < length out.old }
    ensures { Added out.old at (b ∷ []) out.new result }
{
    out[at] = b;
    at + 1
}

fn digit(n: u32) -> u8
    requires { n < 10 }
    ensures { result ≡ 48 + n }
{
    b'0' + n as u8
}

// n in decimal, at most k digits.
fn decimal(k: usize, out: &mut [u8], at: usize, n: u32) -> usize
    requires { at + k ≤ length out.old }
    ensures { Added out.old at (decimal_of k n) out.new result }
{
    if k == 0 {
        return at;
    }
    if n < 10 {
        return add_byte(out, at, digit(n));
    }
    let p = decimal(k - 1, out, at, n / 10);
    add_byte(out, p, digit(n % 10))
}

// A key that stands in the message, into slot n: how long it is.
pub fn write_key(keys: &mut [u8], n: usize, message: &[u8], start: usize, len: usize) -> usize
    requires room { Room keys.old n }
    requires len_in_bounds { (start + len ≤ length message.now) × (len ≤ key_bytes) }
    ensures { Keyed keys.old n (take len (drop start message.now)) keys.new result }
{
    add(keys, KEY_BYTES * n, slices::part(message, start, len)) - KEY_BYTES * n
}

// The raw trip id of an entity with its date.
pub fn write_dated(keys: &mut [u8], n: usize, message: &[u8], t: Trip) -> usize
    requires room { Room keys.old n }
    requires short { Short message.now t }
    ensures { Keyed keys.old n
        (dated_key (part_in message.now t.id) (part_in message.now t.date))
        keys.new result }
{
    let p = add(
        keys,
        KEY_BYTES * n,
        slices::part(message, t.id.start, t.id.len),
    );
    let q = add_byte(keys, p, b'@');
    add(keys, q, slices::part(message, t.date.start, t.date.len)) - KEY_BYTES * n
}

// feed:route, and nothing where there is no route: 16 + 1 + 64 bytes at most.
fn write_route(keys: &mut [u8], at: usize, feed: &[u8], message: &[u8], route: TextPart) -> usize
    requires at_in_bounds { (at + 81 ≤ length keys.old) × (length feed.now ≤ most_feed) }
    requires part_inside { PartInside (length message.now) route × (route.len ≤ most_id) }
    ensures { Added keys.old at
        (prefixed feed.now (part_in message.now route)) keys.new result }
{
    if route.len == 0 {
        return at;
    }
    let p = add(keys, at, feed);
    let q = add_byte(keys, p, b':');
    add(keys, q, slices::part(message, route.start, route.len))
}

// A direction has 10 digits at most.
fn write_direction(keys: &mut [u8], at: usize, direction: Option<u32>) -> usize
    requires { at + 10 ≤ length keys.old }
    ensures { Added keys.old at
        (direction_text (maybe (view_direction direction))) keys.new result }
{
    match direction {
        Some(d) => decimal(10, keys, at, d),
        None => at,
    }
}

// #r=, 81 bytes of a route, &d= and a direction: 97 at most.
fn write_head(keys: &mut [u8], at: usize, feed: &[u8], message: &[u8], t: Trip) -> usize
    requires at_in_bounds { (at + 97 ≤ length keys.old) × (length feed.now ≤ most_feed) }
    requires short { Short message.now t }
    ensures { Added keys.old at
        (head_of feed.now (part_in message.now t.route) (maybe (view_direction t.direction)))
        keys.new result }
{
    let a = add(keys, at, b"#r=");
    let b = write_route(keys, a, feed, message, t.route);
    let c = add(keys, b, b"&d=");
    write_direction(keys, c, t.direction)
}

// &sd= and a date, &st= and a time: 40 bytes at most.
fn write_tail(keys: &mut [u8], at: usize, message: &[u8], date: TextPart, time: TextPart) -> usize
    requires at_in_bounds { at + 40 ≤ length keys.old }
    requires part_inside { PartInside (length message.now) date × (date.len ≤ most_date) }
    requires part_inside_2 { PartInside (length message.now) time × (time.len ≤ most_time) }
    ensures { Added keys.old at
        (tail_of (part_in message.now date) (part_in message.now time)) keys.new result }
{
    let a = add(keys, at, b"&sd=");
    let b = add(keys, a, slices::part(message, date.start, date.len));
    let c = add(keys, b, b"&st=");
    add(keys, c, slices::part(message, time.start, time.len))
}

// The key of an entity without a trip id.
pub fn write_incomplete(keys: &mut [u8], n: usize, feed: &[u8], message: &[u8], t: Trip) -> usize
    requires room { Room keys.old n }
    requires feed_len_bound { length feed.now ≤ most_feed }
    requires short { Short message.now t }
    ensures { Keyed keys.old n
        (head_of feed.now (part_in message.now t.route) (maybe (view_direction t.direction))
        ++ tail_of (part_in message.now t.date) (part_in message.now t.time))
        keys.new result }
{
    let p = write_head(keys, KEY_BYTES * n, feed, message, t);
    write_tail(keys, p, message, t.date, t.time) - KEY_BYTES * n
}
