// Where an overlay's feeds and their trips stand, as question 2 noted it, so that a look-up passes over nothing.
#![tactic(auto)]

ghost use Rattle.std.specs.Prelude.{◌≡◌, ◌+◌, ◌*◌, ◌<◌, length, get_or};
ghost use Rattle.decode.specs.Sizes.{most_trips};
ghost use Rattle.overlay_noted.specs.Promises.Noted.{places_length, Noted, entry_at, count_at, vehicles_at, alerts_at};
ghost use Rattle.overlay_places.specs.Promises.Ranks.{RanksFeed};

use slices::word;
use std::cmp::Ordering;

// Of the feed at rank r: the place of its entry, the count of its trips, the place of trip i, the places of its
// vehicles and its alerts.
pub fn entry_place(noted: &[u32], r: usize) -> usize
    requires { (length noted.now ≡ places_length) × (r < 4) }
    ensures { result ≡ entry_at noted.now r }
{
    word(noted, 8192 + 4 * r)
}

pub fn trip_count(noted: &[u32], r: usize) -> usize
    requires { (length noted.now ≡ places_length) × (r < 4) }
    ensures { result ≡ count_at noted.now r }
{
    word(noted, 8192 + 4 * r + 1)
}

pub fn trip_place(noted: &[u32], r: usize, i: usize) -> usize
    requires { (length noted.now ≡ places_length) × (r < 4) × (i < most_trips) }
    ensures { result ≡ get_or noted.now (2048 * r + i) 0 }
{
    word(noted, 2048 * r + i)
}

pub fn vehicles_place(noted: &[u32], r: usize) -> usize
    requires { (length noted.now ≡ places_length) × (r < 4) }
    ensures { result ≡ vehicles_at noted.now r }
{
    word(noted, 8192 + 4 * r + 2)
}

pub fn alerts_place(noted: &[u32], r: usize) -> usize
    requires { (length noted.now ≡ places_length) × (r < 4) }
    ensures { result ≡ alerts_at noted.now r }
{
    word(noted, 8192 + 4 * r + 3)
}

pub fn feed_rank(old: &[u8], noted: &[u32], feed: &[u8]) -> Option<usize>
    requires { Noted old.now noted.now }
    ensures { RanksFeed old.now noted.now feed.now result }
{
    let count = overlay_feeds::read_head(old).count as usize;
    for r in 0..count {
        let p = entry_place(noted, r);
        match overlay_feeds::compare_text(old, p, feed) {
            Ordering::Less => return None,
            Ordering::Equal => return Some(r),
            Ordering::Greater => {}
        }
    }
    None
}
