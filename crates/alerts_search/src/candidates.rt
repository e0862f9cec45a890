// The search for a leg's candidates among a feed's alerts.
ghost use Rattle.std.specs.Prelude.{◌≡◌, ◌||◌, ◌<◌, length};
ghost use Rattle.formats_skip.specs.Promises.Passes.{Leads};
ghost use Rattle.alerts.specs.Alert.{alert};
ghost use Rattle.alerts_search.specs.Promises.Marks.{most_marks};
ghost use Rattle.alerts_search.specs.Promises.Candidates.{Met, Pushed, Pushes, Candidates};

use crate::ids::{Ask, any_id};
use crate::marks::{is_marked, mark, unmark};

// Where an alert's trip ids stand.
pub fn trips_place(s: &[u8], at: usize) -> usize
    ensures { Leads 3 alert s.now at result }
{
    let a = formats_skip::past_optional_text(s, at);
    let b = formats_skip::past_optional_text(s, a);
    formats_skip::past_optional_text(s, b)
}

// By which of its ids an alert is a candidate, and the place past the alert.
#[derive(Clone, Copy)]
pub struct Meet {
    pub trip: bool,
    pub route: bool,
    pub stop: bool,
    pub next: usize,
}

pub fn met_by(s: &[u8], at: usize, trip: &[u8], route: &[u8], from: &[u8], to: &[u8]) -> Meet
    ensures { Met trip.now route.now from.now to.now
        s.now at result }
{
    let a = trips_place(s, at);
    let t = any_id(Ask::MeetsTrip, trip, alerts_ids::undated(trip), s, a);
    let b = t.next;
    let r = any_id(Ask::MeetsRoute, route, route, s, b);
    let c = r.next;
    let u = any_id(Ask::MeetsStops, from, to, s, c);
    Meet {
        trip: t.hit,
        route: r.hit,
        stop: u.hit,
        next: u.next,
    }
}

// The number i goes behind the n candidates where it hits and isn't marked yet.
fn push(candidates: &mut [u16], met: &mut [u16], n: usize, i: usize, hit: bool) -> usize
    requires { (length met.old ≡ most_marks) × (i < 256) }
    ensures { Pushed hit i n result candidates.old candidates.new met.old
        met.new }
{
    if !hit {
        return n;
    }
    if is_marked(met, i) {
        return n;
    }
    mark(met, i);
    if candidates.len() <= n {
        return n;
    }
    candidates[n] = i as u16;
    n + 1
}

// Once for each of the three lists.
fn push_met(candidates: &mut [u16], met: &mut [u16], n: usize, i: usize, m: Meet) -> usize
    requires { length met.old ≡ most_marks }
    ensures { Pushes (m.trip || m.route || m.stop) i n result candidates.old candidates.new
        met.old met.new }
{
    if 256 <= i {
        return n;
    }
    let a = push(candidates, met, n, i, m.trip);
    let b = push(candidates, met, a, i, m.route);
    push(candidates, met, b, i, m.stop)
}

// The numbers of a leg's candidates among the alerts at `at`, in `candidates`; how many they are.
pub fn find(
    s: &[u8],
    at: usize,
    trip: &[u8],
    route: &[u8],
    from: &[u8],
    to: &[u8],
    candidates: &mut [u16],
    met: &mut [u16],
) -> usize
    requires { (length candidates.old ≡ 256) × (length met.old ≡ most_marks) }
    ensures candidates { Candidates trip.now route.now from.now to.now
        s.now at result candidates.new }
    ensures met_len { length met.new ≡ most_marks }
{
    unmark(met);
    let count = formats_read::number(s, at);
    let mut p = count.next;
    let mut left = count.value;
    let mut i = 0;
    let mut n = 0;
    while 0 < left {
        let m = met_by(s, p, trip, route, from, to);
        n = push_met(candidates, met, n, i, m);
        p = m.next;
        i += 1;
        left -= 1;
    }
    n
}
