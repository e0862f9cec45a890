// Where the parts of an overlay stand: its version, its feeds, one of them by its id, and a feed's parts.
#![tactic(auto)]

ghost use Rattle.overlay_feeds.specs.Promises.Head.{ReadsHead};
ghost use Rattle.overlay_feeds.specs.Promises.Parts.{ReadsFront, ReadsBack, ReadsParts};
ghost use Rattle.overlay_feeds.specs.Promises.Place.{Compares, FindsFeed};

use std::cmp::Ordering;

// The version, the place of the count of feeds, the count, and the place of the first feed.
#[derive(Drop)]
pub struct Head {
    pub version: u64,
    pub counted: usize,
    pub count: u64,
    pub first: usize,
}

pub fn read_head(old: &[u8]) -> Head
    ensures { ReadsHead old.now result.version result.counted result.count result.first }
{
    let v = formats_read::number(old, 1);
    let counted = v.next;
    let n = formats_read::number(old, counted);
    Head {
        version: v.value,
        counted,
        count: n.value,
        first: n.next,
    }
}

// Of a feed: its timestamp, its count and the count's place, the place of its trips.
#[derive(Drop)]
pub struct Front {
    pub timestamp: Option<i64>,
    pub counted: usize,
    pub count: u64,
    pub trips: usize,
}

// The front of the feed whose id ends at `at`.
pub fn read_front(old: &[u8], at: usize) -> Front
    ensures { ReadsFront old.now at result }
{
    let timestamp = formats_read::optional_signed(old, at);
    let counted = formats_skip::past_optional_number(old, at);
    let n = formats_read::number(old, counted);
    Front {
        timestamp,
        counted,
        count: n.value,
        trips: n.next,
    }
}

// The same, the places of its vehicles and alerts, its end.
#[derive(Clone, Copy)]
pub struct Parts {
    pub timestamp: Option<i64>,
    pub counted: usize,
    pub count: u64,
    pub trips: usize,
    pub vehicles: usize,
    pub alerts: usize,
    pub end: usize,
}

// The parts of the feed with this front, whose trips end at `vehicles`.
pub fn read_back(old: &[u8], front: Front, vehicles: usize) -> Parts
    ensures { ReadsBack old.now front vehicles result }
{
    let timestamp = front.timestamp;
    let alerts = overlay_skip::past_vehicles(old, vehicles);
    let end = alerts_skip::past_alerts(old, alerts);
    Parts {
        timestamp,
        counted: front.counted,
        count: front.count,
        trips: front.trips,
        vehicles,
        alerts,
        end,
    }
}

// The parts of the feed whose id ends at `at`.
pub fn read_parts(old: &[u8], at: usize) -> Parts
    ensures { ReadsParts old.now at result }
{
    let front = read_front(old, at);
    let vehicles = decode_skip::past_trips(old, front.trips);
    read_back(old, front, vehicles)
}

// The order of a text and the one that stands at `at`.
pub fn compare_text(old: &[u8], at: usize, text: &[u8]) -> Ordering
    ensures { Compares old.now at text.now result }
{
    let t = formats_read::text(old, at);
    slices::compare(text, &old[t.from..t.to])
}

// A feed's rank, the place of its entry, and the place past its id; or the rank and the place where it would go in.
// No Option or Result: both are answers, with places of their own, and neither is a failure.
#[derive(Drop)]
pub enum FeedPlace {
    At(u64, usize, usize),
    Missing(u64, usize),
}

pub fn find_feed(old: &[u8], feed: &[u8]) -> FeedPlace
    ensures { FindsFeed old.now feed.now result }
{
    let head = read_head(old);
    let count = head.count;
    let mut p = head.first;
    for i in 0..count {
        match compare_text(old, p, feed) {
            Ordering::Less => return FeedPlace::Missing(i, p),
            Ordering::Equal => return FeedPlace::At(i, p, formats_skip::past_text(old, p)),
            Ordering::Greater => {
                p = overlay_skip::past_feed_entry(old, p);
            }
        }
    }
    FeedPlace::Missing(count, p)
}
