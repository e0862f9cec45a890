// A sorted index in lent slices: keys, each with a place, found by halving. The host lends the three slices, and each
// contract says what becomes of each of them, so they stay parameters of their own.
#![tactic(auto)]

ghost use Rattle.std.specs.Prelude.{◌≡◌, ◌+◌, ◌*◌, ◌≤◌, ◌<◌, ◌&&◌, ltb, length, get_or, set};
ghost use Rattle.slices.specs.Lists.{lex_of};
ghost use Rattle.slices.specs.Promises.Inserted.{inserted};
ghost use Rattle.maps.specs.Promises.Order.{is_same, is_more};
ghost use Rattle.maps.specs.Order.{texts};
ghost use Rattle.decode.specs.Sizes.{most_trips, key_bytes, marks_length, order_length};
ghost use Rattle.decode_slots.specs.Index.{slot_key, index};
ghost use Rattle.decode_slots.specs.Promises.Index.{key_in, SoundIndex, Settled, rank_of, remarked};

use decode::sizes::KEY_BYTES;
use std::cmp::Ordering;

pub fn is_more(o: Ordering) -> bool
    ensures { result ≡ is_more o }
{
    o.is_gt()
}

pub fn is_same(o: Ordering) -> bool
    ensures { result ≡ is_same o }
{
    o.is_eq()
}

// The order of the key that stands in slot n, `len` long, and the key of a slot.
fn key_order(keys: &[u8], marks: &[u32], n: usize, len: usize, slot: usize) -> Ordering
    requires len_in_bounds { key_bytes * n + len ≤ length keys.now }
    requires slot_in_bounds { 3 * slot < length marks.now }
    requires slot_in_bounds_2 { key_bytes * slot + get_or marks.now (3 * slot) 0 ≤ length keys.now }
    ensures { result ≡
        lex_of (key_in keys.now n len) (slot_key keys.now marks.now slot) }
{
    let known = slices::word(marks, 3 * slot);
    slices::compare(
        slices::part(keys, KEY_BYTES * n, len),
        slices::part(keys, KEY_BYTES * slot, known),
    )
}

// Where to look next: at the last key first, since keys mostly come in order, and then in the middle.
fn probe(lo: usize, hi: usize, n: usize) -> usize
    requires { lo < hi }
    ensures { (lo ≤ result) × (result < hi) }
{
    if hi == n {
        return hi - 1;
    }
    lo + (hi - lo) / 2
}

// How many keys stand before the key in slot n: found by halving.
// By hand, since std's search begins in the middle, and would compare eleven keys where this compares the last.
fn rank(keys: &[u8], marks: &[u32], order: &[u32], n: usize, len: usize) -> usize
    requires sound_index { SoundIndex keys.now marks.now order.now n }
    requires n_le_most_trips { (n ≤ most_trips) × (len ≤ key_bytes) }
    ensures { result ≡ rank_of texts (key_in keys.now n len)
        (index keys.now marks.now order.now n) }
{
    let mut lo: usize = 0;
    let mut hi = n;
    while lo < hi {
        let mid = probe(lo, hi, n);
        let slot = slices::word(order, mid);
        if key_order(keys, marks, n, len, slot).is_gt() {
            lo = mid + 1;
        } else {
            hi = mid;
        }
    }
    lo
}

// Whether the key at rank r is the key in slot n.
fn stands(keys: &[u8], marks: &[u32], order: &[u32], n: usize, len: usize, r: usize) -> bool
    requires sound_index { SoundIndex keys.now marks.now order.now n }
    requires n_le_most_trips { (n ≤ most_trips) × (len ≤ key_bytes) }
    ensures { result ≡ (ltb r n && is_same (lex_of (key_in keys.now n len)
        (slot_key keys.now marks.now (get_or order.now r 0)))) }
{
    r < n && key_order(keys, marks, n, len, slices::word(order, r)).is_eq()
}

// The place of a slot.
pub fn mark(marks: &mut [u32], slot: usize, from: u32, to: u32)
    requires { 3 * slot + 3 ≤ length marks.old }
    ensures { marks.new ≡ remarked marks.old slot from to }
{
    marks[3 * slot + 1] = from;
    marks[3 * slot + 2] = to;
}

// Slot n is in use from now on, at rank r.
fn enter(marks: &mut [u32], order: &mut [u32], n: usize, r: usize, len: usize, from: u32, to: u32)
    requires n_le_most_trips { (n ≤ most_trips) × (r ≤ n) × (len ≤ key_bytes) }
    requires marks_len { (length marks.old ≡ marks_length) × (length order.old ≡ order_length) }
    ensures marks_after { marks.new ≡ remarked (set marks.old (3 * n) len) n from to }
    ensures order_after { order.new ≡ inserted order.old r n n }
{
    marks[3 * n] = len as u32;
    mark(marks, n, from, to);
    slices::insert(order, r, n, n as u32);
}

// The key in slot n goes in at its rank, over an old one: how many slots are in use then.
pub fn settle(
    keys: &[u8],
    marks: &mut [u32],
    order: &mut [u32],
    n: usize,
    len: usize,
    from: u32,
    to: u32,
) -> usize
    requires sound_index { SoundIndex keys.now marks.old order.old n }
    requires n_le_most_trips { (n ≤ most_trips) × (len ≤ key_bytes) }
    ensures { Settled keys.now marks.old order.old n len from to
        marks.new order.new result }
{
    let r = rank(keys, marks, order, n, len);
    if stands(keys, marks, order, n, len, r) {
        let slot = slices::word(order, r);
        mark(marks, slot, from, to);
        return n;
    }
    enter(marks, order, n, r, len, from, to);
    n + 1
}
