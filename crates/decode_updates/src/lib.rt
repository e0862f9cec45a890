// The updates of a trip record in ascending order of sequence, and whether a record of the index has too many. An
// update is three words of `updates`, its sequence and its place, since the host lends them as words.
#![tactic(auto)]

ghost use Rattle.std.specs.Prelude.{◌≡◌, ◌+◌, ◌*◌, ◌≤◌, false, ◌&&◌, ltb, eqb, length, take, get_or};
ghost use Rattle.basics.specs.Lists.{All};
ghost use Rattle.maps.specs.Order.{numbers};
ghost use Rattle.decode.specs.Sizes.{most_trips, most_updates, most_message};
ghost use Rattle.decode.specs.Sizes.{marks_length, order_length, updates_length};
ghost use Rattle.decode_updates.specs.Promises.Line.{most_lines, three, Lined, Noted};
ghost use Rattle.decode_slots.specs.Promises.Index.{rank_of};
ghost use Rattle.decode_updates.specs.Line.{laid};
ghost use Rattle.decode_updates.specs.Promises.Updates.{ListedUpdates, Counted, CrowdedRead, ReadableSlot};
ghost use Rattle.decode_updates.specs.Promises.Updates.{ReadableNew, crowded_at, crowded_in};

use decode::sizes::{BEYOND, MOST_UPDATES, UPDATES_LENGTH};
use realtime_views::Item;

// How many updates stand before a sequence: found by halving.
// By hand, since an update is three words of `updates`, and std searches elements.
fn rank(updates: &[u32], n: usize, sequence: u32) -> usize
    requires { Lined updates.now n }
    ensures { result ≡ rank_of numbers sequence (laid n updates.now) }
{
    let mut lo: usize = 0;
    let mut hi = n;
    while lo < hi {
        let mid = lo + (hi - lo) / 2;
        if updates[3 * mid] < sequence {
            lo = mid + 1;
        } else {
            hi = mid;
        }
    }
    lo
}

// The same, the last update looked at first: they arrive in order as a rule.
fn place_of(updates: &[u32], n: usize, sequence: u32) -> usize
    requires { Lined updates.now n }
    ensures { result ≡ rank_of numbers sequence (laid n updates.now) }
{
    if n > 0 && updates[3 * (n - 1)] < sequence {
        return n;
    }
    rank(updates, n, sequence)
}

// Whether the update at rank r has the sequence.
fn is_at(updates: &[u32], n: usize, r: usize, sequence: u32) -> bool
    requires { (n ≤ most_lines) × (length updates.now ≡ updates_length) }
    ensures { result ≡ (ltb r n && eqb (get_or updates.now (3 * r) 0) sequence) }
{
    r < n && updates[3 * r] == sequence
}

// Three numbers go in at rank r.
fn line(updates: &mut [u32], n: usize, r: usize, sequence: u32, from: u32, to: u32)
    requires { (r ≤ n) × (n ≤ most_updates) × (length updates.old ≡ updates_length) }
    ensures { updates.new ≡ three updates.old r n sequence from to }
{
    slices::insert(updates, 3 * r, 3 * n, sequence);
    slices::insert(updates, 3 * r + 1, 3 * n + 1, from);
    slices::insert(updates, 3 * r + 2, 3 * n + 2, to);
}

// An update goes in at its sequence, over an old one: how many are in use then.
pub fn note(updates: &mut [u32], n: usize, sequence: u32, from: u32, to: u32) -> usize
    requires lined { Lined updates.old n }
    requires n_le_most_updates { n ≤ most_updates }
    ensures { Noted updates.old n sequence from to updates.new result }
{
    let r = place_of(updates, n, sequence);
    if is_at(updates, n, r, sequence) {
        decode_slots::mark(updates, r, from, to);
        return n;
    }
    line(updates, n, r, sequence, from, to);
    n + 1
}

// The places of an entity's updates by their sequences, a later one over an earlier one: how many they are. The first
// above 128 is the last that is noted.
pub fn updates_of(updates: &mut [u32], message: &[u8], start: usize, len: usize) -> usize
    requires updates_len { length updates.old ≡ updates_length }
    requires len_in_bounds { (start + len ≤ length message.now) × (length message.now ≤ most_message) }
    ensures { ListedUpdates message.now start len updates.new result }
{
    let end = start + len;
    let mut walk = realtime_views::merged_items(start);
    let mut n: usize = 0;
    while let Item::At {
        start: at,
        len: size,
        walk: rest,
    } = realtime_views::next_update(slices::part(message, 0, end), walk)
    {
        let sequence = realtime_views::sequence_at(message, at, size);
        n = note(updates, n, sequence, at as u32, (at + size) as u32);
        if n > MOST_UPDATES {
            return n;
        }
        walk = rest;
    }
    n
}

// How many updates an entity has, at their sequences or not: counted up to the first above 128.
fn count_updates(message: &[u8], start: usize, len: usize) -> usize
    requires { start + len ≤ length message.now }
    ensures { Counted message.now start len result }
{
    let end = start + len;
    let mut walk = realtime_views::merged_items(start);
    for n in 0..MOST_UPDATES + 1 {
        let Item::At { walk: rest, .. } = realtime_views::next_update(
            slices::part(message, 0, end),
            walk,
        ) else {
            return n;
        };
        walk = rest;
    }
    MOST_UPDATES + 1
}

// Whether the record of an entity has more than 128. Few records do, and counting tells of nearly all others.
fn is_crowded(message: &[u8], start: usize, len: usize) -> bool
    requires { (start + len ≤ length message.now) × (length message.now ≤ most_message) }
    ensures { CrowdedRead message.now start len result }
{
    if count_updates(message, start, len) <= MOST_UPDATES {
        return false;
    }
    let mut updates = [0u32; UPDATES_LENGTH];
    updates_of(&mut updates, message, start, len) > MOST_UPDATES
}

// Whether the record at a place is of the message, and has more than 128; that at another place has not.
fn place_crowded(message: &[u8], other_from: usize, other_to: usize, from: usize, to: usize) -> bool
    requires message_len_bound { length message.now ≤ most_message }
    requires other_to_value { crowded_at message.now (other_from, other_to) ≡ false }
    requires readable_new { ReadableNew message.now (from, to) }
    ensures { result ≡ crowded_at message.now (from, to) }
{
    if from >= BEYOND {
        return false;
    }
    if from == other_from && to == other_to {
        return false;
    }
    is_crowded(message, from, to - from)
}

// Whether one of the first n slots has such a record: the first that is found ends the search. A dated record has two
// slots, one after the other as a rule, and is asked once then.
pub fn any_crowded(marks: &[u32], order: &[u32], n: usize, message: &[u8]) -> bool
    requires marks_len { (length marks.now ≡ marks_length) × (length order.now ≡ order_length) }
    requires n_le_most_trips { (n ≤ most_trips) × (length message.now ≤ most_message) }
    requires all { All (ReadableSlot message.now marks.now) (take n order.now) }
    ensures { result ≡ crowded_in message.now marks.now (take n order.now) }
{
    let mut from = BEYOND;
    let mut to = BEYOND;
    for &slot in &order[..n] {
        let slot = slot as usize;
        let a = slices::word(marks, 3 * slot + 1);
        let e = slices::word(marks, 3 * slot + 2);
        if place_crowded(message, from, to, a, e) {
            return true;
        }
        from = a;
        to = e;
    }
    false
}
