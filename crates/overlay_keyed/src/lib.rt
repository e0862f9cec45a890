// The trips of a feed by checked reading: each key is one of its record, keys ascend, and the feed's count is right.
#![tactic(auto)]

ghost use Rattle.std.specs.Prelude.{◌≡◌, ◌≤◌, length, None};
ghost use Rattle.formats.specs.Class.{printable};
ghost use Rattle.formats.specs.Format.{list};
ghost use Rattle.formats_check.specs.Promises.Checked.{Tested};
ghost use Rattle.formats_check.specs.Laws.Climbing.{Climbs, Entered, by_key};
ghost use Rattle.decode.specs.Leaves.{has_byte};
ghost use Rattle.decode.specs.Sizes.{most_trips};
ghost use Rattle.decode.specs.Trip.{trip_entry};
ghost use Rattle.overlay_noted.specs.Promises.Noting.{Unless, EntriesPut, TripsPut};
ghost use Rattle.overlay_keys.specs.Promises.Piece.{bytes, Inside};
ghost use Rattle.overlay_keyed.specs.Promises.Trips.{entry_good, plain, is_count, trips_good};

// Whether '@' is in a text.
fn has_at(v: &[u8]) -> bool
    ensures { result ≡ has_byte 64 v.now }
{
    v.contains(&b'@')
}

// What the key from a up to e adds to the count. `marked`: the feed's id has an '@', and so every key.
fn adds(marked: bool, feed: &[u8], old: &[u8], a: usize, e: usize) -> u64
    requires marked_value { marked ≡ has_byte 64 feed.now }
    requires inside { Inside old.now a e }
    ensures { (result ≡ plain feed.now (bytes old.now a e)) × (result ≤ 1) }
{
    if marked {
        return 0;
    }
    if has_at(&old[a..e]) {
        return 0;
    }
    1
}

fn trip_entry(feed: &[u8], old: &[u8], at: usize) -> Option<(usize, usize, usize)>
    ensures { Entered 137 printable (entry_good feed.now) old.now at result }
{
    let (a, e) = formats_check::printable_at(137, old, at)?;
    let q = overlay_trip::trip(old, e)?;
    if overlay_keys::key_ok(feed, old, a, e) {
        return Some((a, e, q));
    }
    None
}

// n trips of the feed one after another, ascending by key: the walk keeps the place of the last key, and the sum, and
// notes the place of each from `base` on.
fn trips_from(
    c: u64,
    n: u64,
    marked: bool,
    feed: &[u8],
    old: &[u8],
    at: usize,
    noted: &mut [u32],
    base: usize,
) -> Option<usize>
    requires marked_value { marked ≡ has_byte 64 feed.now }
    requires at_in_bounds { at ≤ length old.now }
    requires base_bound { (base ≤ 6144) × (n ≤ most_trips) }
    ensures climbs { Climbs 137 printable (entry_good feed.now) (by_key (plain feed.now))
        (is_count c n) n old.now at result }
    ensures unless { Unless result None (EntriesPut old.now at n base noted.old
        noted.new) }
{
    let mut p = at;
    let mut i = base;
    // No Option of a place: the contract of `follows` speaks of these three.
    let mut first = true;
    let mut b: usize = 0;
    let mut d: usize = 0;
    let mut m: u64 = 0;
    for _ in 0..n {
        let (a, e, q) = trip_entry(feed, old, p)?;
        if !formats_check::follows(first, old, b, d, a, e) {
            return None;
        }
        m += adds(marked, feed, old, a, e);
        overlay_noted::note(noted, i, p);
        p = q;
        i += 1;
        first = false;
        b = a;
        d = e;
    }
    if c == m {
        return Some(p);
    }
    if c == n {
        return Some(p);
    }
    None
}

// The trips of the feed whose count is c. Their places are noted from `base` on.
pub fn trips(
    c: u64,
    feed: &[u8],
    old: &[u8],
    at: usize,
    noted: &mut [u32],
    base: usize,
) -> Option<usize>
    requires { base ≤ 6144 }
    ensures tested { Tested (list 2048 trip_entry) (trips_good feed.now c) old.now at result }
    ensures unless { Unless result None (TripsPut old.now at base noted.old
        noted.new) }
{
    let (n, p) = formats_check::number_at(old, at)?;
    if 2048 < n {
        return None;
    }
    let marked = has_at(feed);
    trips_from(c, n, marked, feed, old, p, noted, base)
}
