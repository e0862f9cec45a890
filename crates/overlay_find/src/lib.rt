// Look-ups among the noted trips of a feed, by the places of what they find.
#![tactic(auto)]

ghost use Rattle.maps.specs.Map.{get};
ghost use Rattle.maps.specs.Order.{texts};
ghost use Rattle.formats_write.specs.Promises.Given.{given_number};
ghost use Rattle.decode.specs.Trip.{trip_entry};
ghost use Rattle.overlay.specs.Lookup.{trip_at, get_trip, find_trip_by_descriptor};
ghost use Rattle.overlay_noted.specs.Promises.Noted.{RankNoted};
ghost use Rattle.overlay_seek.specs.Promises.Answers.{Tests};
ghost use Rattle.overlay_find.specs.Promises.Finds.{Finds};
ghost use Rattle.overlay_find.specs.Promises.Texts.{RouteIs, DirectionIs, Described, descriptor_test};

use std::cmp::Ordering;

// The record at the rest of a key, among the trips of the feed at rank r: found by halving.
fn rest_at(old: &[u8], noted: &[u32], r: usize, rest: &[u8]) -> Option<usize>
    requires { RankNoted old.now noted.now r }
    ensures { Finds (get texts rest.now) old.now noted.now r result }
{
    // Halved by hand: `binary_search_by` over the noted words would read a text in its closure, and be no plainer.
    let mut lo = 0;
    let mut hi = overlay_places::trip_count(noted, r);
    while lo < hi {
        let mid = lo + (hi - lo) / 2;
        let p = overlay_places::trip_place(noted, r, mid);
        match overlay_feeds::compare_text(old, p, rest) {
            Ordering::Less => {
                hi = mid;
            }
            Ordering::Equal => return Some(formats_skip::past_text(old, p)),
            Ordering::Greater => {
                lo = mid + 1;
            }
        }
    }
    None
}

// The record at a whole key, among the trips of the feed at rank r.
fn trip_at(old: &[u8], noted: &[u32], r: usize, feed: &[u8], key: &[u8]) -> Option<usize>
    requires { RankNoted old.now noted.now r }
    ensures { Finds (trip_at feed.now key.now) old.now noted.now r result }
{
    let n = feed.len();
    if key.len() <= n {
        return None;
    }
    if key[n] != 58 {
        return None;
    }
    if slices::same(feed, &key[..n]) {
        let p = n + 1;
        return rest_at(old, noted, r, &key[p..]);
    }
    None
}

// By the whole key, else without what follows its last '@'.
pub fn get_trip(old: &[u8], noted: &[u32], r: usize, feed: &[u8], key: &[u8]) -> Option<usize>
    requires { RankNoted old.now noted.now r }
    ensures { Finds (get_trip feed.now key.now) old.now noted.now r result }
{
    if let Some(p) = trip_at(old, noted, r, feed, key) {
        return Some(p);
    }
    let end = overlay_ids::last_at(key)?;
    trip_at(old, noted, r, feed, &key[..end])
}

// Whether the route at `at` is the leg's.
fn route_is(old: &[u8], at: usize, feed: &[u8], leg: &[u8]) -> bool
    ensures { RouteIs old.now at feed.now leg.now result }
{
    let t = formats_read::text(old, at);
    overlay_ids::route_fits(feed, &old[t.from..t.to], leg)
}

// A leg without direction meets any; with one, a record of the same.
fn direction_is(old: &[u8], at: usize, direction: Option<u64>) -> bool
    ensures { DirectionIs old.now at direction result }
{
    match direction {
        None => true,
        Some(_) => direction == formats_read::optional_number(old, at),
    }
}

// Whether a record, from its date on, has the leg's descriptor.
fn described(
    old: &[u8],
    at: usize,
    feed: &[u8],
    leg: &[u8],
    direction: Option<u64>,
    date: &[u8],
) -> bool
    ensures { Described old.now at feed.now leg.now direction date.now result }
{
    if overlay_seek::is_text(old, at, date) {
        let p = formats_skip::past_text(old, at);
        if route_is(old, p, feed, leg) {
            let q = formats_skip::past_text(old, p);
            return direction_is(old, q, direction);
        }
        return false;
    }
    false
}

// Whether the entry at `at` has the leg's descriptor.
fn descriptor_is(
    old: &[u8],
    at: usize,
    feed: &[u8],
    leg: &[u8],
    direction: Option<u64>,
    date: &[u8],
) -> bool
    ensures { Tests trip_entry
        (descriptor_test feed.now leg.now direction date.now)
        old.now at result }
{
    let p = formats_skip::past_text(old, at);
    let q = decode_skip::date_place(old, p);
    described(old, q, feed, leg, direction, date)
}

// The first record of that route, direction and start date, among the trips of the feed at rank r.
pub fn by_descriptor(
    old: &[u8],
    noted: &[u32],
    r: usize,
    feed: &[u8],
    leg: &[u8],
    direction: Option<u64>,
    date: &[u8],
) -> Option<usize>
    requires { RankNoted old.now noted.now r }
    ensures { Finds
        (find_trip_by_descriptor feed.now leg.now (given_number direction) date.now)
        old.now noted.now r result }
{
    let n = overlay_places::trip_count(noted, r);
    for i in 0..n {
        let p = overlay_places::trip_place(noted, r, i);
        if descriptor_is(old, p, feed, leg, direction, date) {
            return Some(formats_skip::past_text(old, p));
        }
    }
    None
}
