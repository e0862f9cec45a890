// Question 2: whether a buffer is an overlay, and where its state ends. One walk over the state by checked reading,
// which notes where feeds and trips stand, and one over the zeros behind it.
#![tactic(auto)]

ghost use Rattle.std.specs.Prelude.{◌≡◌, ◌≤◌, ◌<◌, length, None};
ghost use Rattle.formats.specs.Class.{token};
ghost use Rattle.formats.specs.Format.{list, optional};
ghost use Rattle.formats_check.specs.Promises.Checked.{Fine, Tested};
ghost use Rattle.formats_check.specs.Laws.Climbing.{Climbs, Entered, weightless, whatever};
ghost use Rattle.overlay.specs.State.{timestamp, feed, feed_entry, overlay, feeds_of};
ghost use Rattle.overlay.specs.Image.{state_of};
ghost use Rattle.overlay_noted.specs.Promises.Noting.{Unless};
ghost use Rattle.overlay_open.specs.Promises.Opened.{ending, Notes};
ghost use Rattle.overlay_open.specs.Promises.State.{records, counted, records_good, counted_good, feed_good};
ghost use Rattle.overlay_open.specs.Promises.State.{entry_good, feeds_good, state_good};
ghost use Rattle.overlay_open.specs.Promises.Feeds.{RecordsPut, FeedPut, FeedsPut, HeldPut};

use formats_check::number_at;
use overlay_noted::note_parts;

// Any 64 bits, by how a signed number is written.
fn timestamp(old: &[u8], at: usize) -> Option<usize>
    ensures { Fine timestamp old.now at result }
{
    let (n, p) = number_at(old, at)?;
    Some(p)
}

fn optional_timestamp(old: &[u8], at: usize) -> Option<usize>
    ensures { Fine (optional timestamp) old.now at result }
{
    match old.get(at)? {
        0 => Some(at + 1),
        1 => timestamp(old, at + 1),
        _ => None,
    }
}

// Trips, vehicles and alerts of the feed whose count is c, at rank r, with its entry at `entry`.
fn records(
    c: u64,
    id: &[u8],
    old: &[u8],
    at: usize,
    noted: &mut [u32],
    r: usize,
    entry: usize,
) -> Option<usize>
    requires { r < 4 }
    ensures tested { Tested records (records_good id.now c) old.now at result }
    ensures unless { Unless result None (RecordsPut records (λ v. v) old.now at r entry
        noted.old noted.new) }
{
    let p = overlay_keyed::trips(c, id, old, at, noted, 2048 * r)?;
    let q = overlay_records::vehicles(old, p)?;
    let n = formats_read::number(old, at);
    note_parts(noted, r, entry, n.value as usize, p, q);
    overlay_records::alerts(old, q)
}

fn counted(
    id: &[u8],
    old: &[u8],
    at: usize,
    noted: &mut [u32],
    r: usize,
    entry: usize,
) -> Option<usize>
    requires { r < 4 }
    ensures tested { Tested counted (counted_good id.now) old.now at result }
    ensures unless { Unless result None (RecordsPut counted (λ v. v.1) old.now at r entry
        noted.old noted.new) }
{
    let (c, p) = number_at(old, at)?;
    if 2048 < c {
        return None;
    }
    records(c, id, old, p, noted, r, entry)
}

fn feed(
    id: &[u8],
    old: &[u8],
    at: usize,
    noted: &mut [u32],
    r: usize,
    entry: usize,
) -> Option<usize>
    requires { r < 4 }
    ensures tested { Tested feed (feed_good id.now) old.now at result }
    ensures unless { Unless result None (RecordsPut feed (λ v. v.1.1) old.now at r entry
        noted.old noted.new) }
{
    let p = optional_timestamp(old, at)?;
    counted(id, old, p, noted, r, entry)
}

// A feed and its id, at rank r: class 2 is that of tokens.
fn feed_entry(old: &[u8], at: usize, noted: &mut [u32], r: usize) -> Option<(usize, usize, usize)>
    requires { r < 4 }
    ensures entered { Entered 16 token entry_good old.now at result }
    ensures unless { Unless result None (FeedPut old.now at r noted.old noted.new) }
{
    let (a, e) = formats_check::text_at(2, 16, old, at)?;
    let q = feed(&old[a..e], old, e, noted, r, at)?;
    Some((a, e, q))
}

// n feeds one after another, ascending by id: the walk keeps the place of the last id.
fn feeds_from(n: u64, old: &[u8], at: usize, noted: &mut [u32]) -> Option<usize>
    requires at_in_bounds { at ≤ length old.now }
    requires n_bound { n ≤ 4 }
    ensures climbs { Climbs 16 token entry_good weightless (whatever n) n old.now at result }
    ensures unless { Unless result None (FeedsPut old.now at n noted.old
        noted.new) }
{
    let mut p = at;
    // No Option of a place: the contract of `follows` speaks of these three.
    let mut first = true;
    let mut b: usize = 0;
    let mut d: usize = 0;
    for r in 0..n {
        let (a, e, q) = feed_entry(old, p, noted, r as usize)?;
        if !formats_check::follows(first, old, b, d, a, e) {
            return None;
        }
        p = q;
        first = false;
        b = a;
        d = e;
    }
    Some(p)
}

fn feeds(old: &[u8], at: usize, noted: &mut [u32]) -> Option<usize>
    ensures tested { Tested (list 4 feed_entry) feeds_good old.now at result }
    ensures unless { Unless result None (HeldPut (list 4 feed_entry) (λ v. v) old.now at
        noted.old noted.new) }
{
    let (n, p) = number_at(old, at)?;
    if 4 < n {
        return None;
    }
    feeds_from(n, old, p, noted)
}

// The byte 1, any version, the feeds.
fn state(old: &[u8], at: usize, noted: &mut [u32]) -> Option<usize>
    ensures tested { Tested overlay state_good old.now at result }
    ensures unless { Unless result None (HeldPut overlay feeds_of old.now at noted.old
        noted.new) }
{
    let p = formats::given(old, at, 1)?;
    let (v, q) = number_at(old, p)?;
    feeds(old, q, noted)
}

// QUESTION 2, and where the feeds and trips of the overlay stand, in numbers for all of them.
pub fn open_noted(old: &[u8], noted: &mut [u32]) -> Option<usize>
    ensures value { result ≡ ending (state_of old.now) }
    ensures notes { Notes old.now noted.old noted.new result }
{
    let p = state(old, 0, noted)?;
    if slices::all_zero(&old[p..]) {
        return Some(p);
    }
    None
}

// QUESTION 2.
pub fn open(old: &[u8]) -> Option<usize>
    ensures { result ≡ ending (state_of old.now) }
{
    let mut none = [0u32; 1];
    open_noted(old, &mut none)
}
