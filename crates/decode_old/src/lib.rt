// The old trips of a feed join the index before a message's entities: where the message says what has changed, and not
// all there is.
#![tactic(auto)]

ghost use Rattle.std.specs.Prelude.{◌≡◌, ◌+◌, ◌≤◌};
ghost use Rattle.decode_slots.specs.Promises.Index.{Open, Lent};
ghost use Rattle.decode.specs.Sizes.{beyond, most_old};
ghost use Rattle.decode_old.specs.Promises.Old.{Stands, Joined, Entry, FiledEntry};

use decode::sizes::BEYOND;

// A place of the old overlay's bytes, above all those of a message.
fn old_place(p: usize) -> u32
    requires { p ≤ most_old }
    ensures { result ≡ beyond + p }
{
    (BEYOND + p) as u32
}

// How many slots are in use, and the place past what has joined.
#[derive(Drop)]
pub struct Passed {
    pub slots: usize,
    pub next: usize,
}

// The key of the entry at `at` goes into the index with the place of its record.
fn file_entry(
    keys: &mut [u8],
    marks: &mut [u32],
    order: &mut [u32],
    n: usize,
    old: &[u8],
    at: usize,
) -> Passed
    requires fact { Open keys.old marks.old order.old n }
    requires entry { Entry old.now at }
    ensures { FiledEntry old.now at keys.old marks.old order.old n
        keys.new marks.new order.new result.slots result.next }
{
    let key = formats_read::text(old, at);
    let next = decode_skip::past_trip(old, key.to);
    let from = old_place(key.to);
    let to = old_place(next);
    let slots = decode_keys::file_key(
        keys,
        marks,
        order,
        n,
        old,
        key.from,
        key.to - key.from,
        from,
        to,
    );
    Passed { slots, next }
}

// The index of the old trips that stand at `at`.
pub fn join(keys: &mut [u8], marks: &mut [u32], order: &mut [u32], old: &[u8], at: usize) -> Passed
    requires lent { Lent keys.old marks.old order.old }
    requires stands { Stands old.now at }
    ensures { Joined old.now at keys.new marks.new order.new
        result.slots result.next }
{
    let count = formats_read::number(old, at);
    let mut n = 0;
    let mut p = count.next;
    for _ in 0..count.value {
        let passed = file_entry(keys, marks, order, n, old, p);
        n = passed.slots;
        p = passed.next;
    }
    Passed { slots: n, next: p }
}
