// Ids compared where they stand: a feed's prefix, a key's last '@', and `feed:id` without joining it.
#![tactic(auto)]

ghost use Rattle.std.specs.Prelude.{◌<◌, length};
ghost use Rattle.overlay_ids.specs.Promises.Ids.{FeedEnd, LastAt, IsJoined, EndsColon, EndsJoined};
ghost use Rattle.overlay_ids.specs.Promises.Ids.{RouteFits, StopFits};

// Where the feed's prefix of an id ends.
pub fn feed_end(id: &[u8]) -> usize
    ensures { FeedEnd id.now result }
{
    for i in 0..id.len() {
        if id[i] == b':' {
            return i;
        }
    }
    id.len()
}

// The last '@' of a key.
pub fn last_at(key: &[u8]) -> Option<usize>
    ensures { LastAt key.now result }
{
    for i in (0..key.len()).rev() {
        if key[i] == b'@' {
            return Some(i);
        }
    }
    None
}

// Whether a key is `feed:rest`.
pub fn same_joined(feed: &[u8], rest: &[u8], key: &[u8]) -> bool
    ensures { IsJoined feed.now rest.now key.now result }
{
    let n = feed.len();
    if key.len() <= n {
        return false;
    }
    if key.len() - n - 1 != rest.len() {
        return false;
    }
    if key[n] != b':' {
        return false;
    }
    let p = n + 1;
    if slices::same(rest, &key[p..]) {
        return slices::same(feed, &key[..n]);
    }
    false
}

// Whether a text ends with ':' and an id.
pub fn ends_colon(id: &[u8], s: &[u8]) -> bool
    ensures { EndsColon id.now s.now result }
{
    if s.len() <= id.len() {
        return false;
    }
    let p = s.len() - id.len();
    if s[p - 1] != b':' {
        return false;
    }
    slices::same(id, &s[p..])
}

// Whether a leg's route ends with ':' and `feed:rest`.
pub fn ends_joined(feed: &[u8], rest: &[u8], leg: &[u8]) -> bool
    ensures { EndsJoined feed.now rest.now leg.now result }
{
    if leg.len() <= feed.len() {
        return false;
    }
    let m = leg.len() - feed.len();
    if m < 2 {
        return false;
    }
    if m - 2 < rest.len() {
        return false;
    }
    let p = m - 1 - rest.len();
    if leg[p - 1] != b':' {
        return false;
    }
    same_joined(feed, rest, &leg[p..])
}

// Whether a feed's stop is the card's, whose id is longer.
fn longer_fits(feed: &[u8], id: &[u8], stop: &[u8]) -> bool
    requires id_nonzero { 0 < length id.now }
    requires id_in_bounds { length id.now < length stop.now }
    ensures { StopFits feed.now id.now stop.now result }
{
    if ends_colon(id, stop) {
        let m = stop.len() - id.len() - 1;
        if slices::same(feed, &stop[..m]) {
            return true;
        }
        return ends_colon(&stop[..m], feed);
    }
    false
}

// Whether a feed's stop is the card's.
pub fn stop_fits(feed: &[u8], id: &[u8], stop: &[u8]) -> bool
    ensures { StopFits feed.now id.now stop.now result }
{
    if id.len() == 0 {
        return false;
    }
    if stop.len() < id.len() {
        return ends_colon(stop, id);
    }
    if stop.len() == id.len() {
        return slices::same(stop, id);
    }
    longer_fits(feed, id, stop)
}

// Whether a feed's route is the leg's.
pub fn route_fits(feed: &[u8], route: &[u8], leg: &[u8]) -> bool
    ensures { RouteFits feed.now route.now leg.now result }
{
    if stop_fits(feed, route, leg) {
        return true;
    }
    if route.len() == 0 {
        return false;
    }
    ends_joined(feed, route, leg)
}
