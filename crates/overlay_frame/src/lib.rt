// An overlay written anew with one feed put: where that feed's body goes, what stands before it, and what follows it.
#![tactic(auto)]

ghost use Rattle.std.specs.Prelude.{◌≡◌, cond, List, ℕ};
ghost use Rattle.formats_write.specs.Promises.Adds.{Adds};
ghost use Rattle.overlay.specs.State.{State};
ghost use Rattle.overlay_frame.specs.Promises.Body.{FindsSpot};
ghost use Rattle.overlay_frame.specs.Promises.Frame.{Spot, head_w, opening_w, closing_w};

use overlay_feeds::FeedPlace;

// The feeds of a state.
const MOST_FEEDS: u64 = 4;

// The body of a feed that isn't there yet: no timestamp, a count of 0, no trips, no vehicles, no alerts.
pub const NO_FEED: [u8; 5] = [0, 0, 0, 0, 0];

// Where the body of a feed goes: the place of its entry, the place past its id, and how many feeds there are; or the
// place where it goes in, and how many feeds there are with it.
#[derive(Drop)]
pub enum FeedSpot {
    Known(usize, usize, u64),
    New(usize, u64),
}

// Where a feed's body goes, unless it would be a fifth feed: there is no room for that.
pub fn spot(old: &[u8], feed: &[u8]) -> Option<FeedSpot>
    ensures { FindsSpot old.now feed.now result }
{
    let count = overlay_feeds::read_head(old).count;
    match overlay_feeds::find_feed(old, feed) {
        FeedPlace::At(_, from, body) => Some(FeedSpot::Known(from, body, count)),
        FeedPlace::Missing(_, from) => {
            if count >= MOST_FEEDS {
                return None;
            }
            Some(FeedSpot::New(from, count + 1))
        }
    }
}

// Where the state goes on behind a feed's body: where the old one ends, or, where there is none, where it goes in.
pub fn behind(known: bool, stop: usize, from: usize) -> usize
    ensures { result ≡ cond known stop from }
{
    if known {
        return stop;
    }
    from
}

// The overlay's first byte, its version and its number of feeds.
fn head(out: &mut [u8], w: Option<usize>, version: u64, count: u64) -> Option<usize>
    ensures { Adds out.old w out.new result (head_w version count) }
{
    let w1 = formats_write::byte(out, w, 1);
    let w2 = formats_write::number(out, w1, version);
    formats_write::number(out, w2, count)
}

// What stands before the body of the feed `feed`, which goes in at `from`: with it there are `count` feeds.
pub fn opening(
    out: &mut [u8],
    w: Option<usize>,
    version: u64,
    count: u64,
    old: &[u8],
    from: usize,
    feed: &[u8],
) -> Option<usize>
    ensures { (q : ℕ) (s : State) (to : ℕ) (S : Spot old.now q s feed.now from to count)
        → Adds out.old w out.new result (opening_w version count S.front feed.now) }
{
    let first = overlay_feeds::read_head(old).first;
    let w1 = head(out, w, version, count);
    let w2 = formats_write::stretch(out, w1, old, first, from);
    let n = feed.len();
    formats_write::text(out, w2, feed, 0, n)
}

// What follows the body: the feeds from `to` up to the end of the state.
pub fn closing(out: &mut [u8], w: Option<usize>, old: &[u8], to: usize, end: usize) -> Option<usize>
    ensures { (s : State) (f : List ℕ) (from count : ℕ) (S : Spot old.now end s f from to count)
        → Adds out.old w out.new result (closing_w S.back) }
{
    formats_write::stretch(out, w, old, to, end)
}
