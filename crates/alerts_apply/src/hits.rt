// Which of the leg's ids an alert's ids hit.
ghost use Rattle.std.specs.Prelude.{◌≡◌};
ghost use Rattle.alerts_apply.specs.Promises.Hits.{HitBy, unless};

use alerts_search::candidates::trips_place;
use alerts_search::ids::{Ask, any_id};

#[derive(Clone, Copy)]
pub struct Hit {
    pub trip: bool,
    pub route: bool,
    pub stop: bool,
}

fn unless_empty(n: usize, hit: bool) -> bool
    ensures { result ≡ unless n hit }
{
    if n == 0 {
        return false;
    }
    hit
}

// The short name is trimmed.
pub fn hit_by(
    s: &[u8],
    at: usize,
    trip: &[u8],
    route: &[u8],
    short: &[u8],
    from: &[u8],
    to: &[u8],
) -> Hit
    ensures { HitBy trip.now route.now short.now from.now
        to.now s.now at result }
{
    let a = trips_place(s, at);
    let base = alerts_ids::undated(trip);
    let t = any_id(Ask::HitsTrip, trip, base, s, a);
    let b = t.next;
    let r = any_id(Ask::HitsRoute, route, short, s, b);
    let c = r.next;
    let u = any_id(Ask::HitsStops, from, to, s, c);
    Hit {
        trip: unless_empty(base.len(), t.hit),
        route: r.hit,
        stop: u.hit,
    }
}
