// What is asked of an alert's ids: of one id, beside texts of the leg, and of a list of ids that stands at a place.
ghost use Rattle.std.specs.Prelude.{◌≡◌, ◌||◌};
ghost use Rattle.basics.specs.Lists.{any};
ghost use Rattle.basics.specs.Texts.{same};
ghost use Rattle.alerts.specs.Index.{id_keys};
ghost use Rattle.alerts_ids.specs.Promises.Cuts.{LastOf};
ghost use Rattle.alerts_search.specs.Promises.Ids.{meets_trip, meets_id, meets_stop, hits_trip_id, hits_stop_id};
ghost use Rattle.alerts_search.specs.Promises.Ids.{hits_route_id, answer_of, Asked};

use alerts_ids::{last_of, same_ignoring_case, stop_tail, undated};

// What is asked: whether the id makes the alert a candidate, or hits the leg, by trip, route or stops.
#[derive(Clone, Copy)]
pub enum Ask {
    MeetsTrip,
    MeetsRoute,
    MeetsStops,
    HitsTrip,
    HitsRoute,
    HitsStops,
}

// Whether k is one of the keys of an id: the id, or what stands past its last ':', which is at c, if there is
// something.
fn key_in(k: &[u8], x: &[u8], c: usize) -> bool
    requires { LastOf 58 x.now c }
    ensures { result ≡ any (same k.now) (id_keys x.now) }
{
    if slices::same(k, x) {
        return true;
    }
    if x.len() <= c {
        return false;
    }
    let t = c + 1;
    if x.len() <= t {
        return false;
    }
    slices::same(k, &x[t..])
}

// Whether an id of the leg, or what stands past its last ':', is one of the keys of x.
fn meets_id(k: &[u8], x: &[u8]) -> bool
    ensures { result ≡ meets_id k.now x.now }
{
    let c = last_of(x, b':');
    if key_in(k, x, c) {
        return true;
    }
    let d = last_of(k, b':');
    if k.len() <= d {
        return false;
    }
    let t = d + 1;
    key_in(&k[t..], x, c)
}

fn meets_stop(x: &[u8], y: &[u8], id: &[u8]) -> bool
    ensures { result ≡ meets_stop x.now y.now id.now }
{
    meets_id(x, id) || meets_id(y, id)
}

// Whether a trip id, with its date or without, is the leg's, with its date or without.
fn meets_trip(trip: &[u8], base: &[u8], id: &[u8]) -> bool
    ensures { result ≡ meets_trip trip.now base.now id.now }
{
    let u = undated(id);
    slices::same(base, id)
        || slices::same(base, u)
        || slices::same(trip, id)
        || slices::same(trip, u)
}

fn hits_trip(trip: &[u8], base: &[u8], id: &[u8]) -> bool
    ensures { result ≡ hits_trip_id trip.now base.now id.now }
{
    slices::same(id, trip) || slices::same(id, base) || alerts_ids::ends_after_colon(id, base)
}

fn hits_stop(x: &[u8], id: &[u8]) -> bool
    ensures { result ≡ hits_stop_id x.now id.now }
{
    !x.is_empty() && (slices::same(id, x) || same_ignoring_case(stop_tail(id), stop_tail(x)))
}

fn hits_route(route: &[u8], short: &[u8], id: &[u8]) -> bool
    ensures { result ≡ hits_route_id route.now short.now id.now }
{
    alerts_ids::route_refs_match(route, id) || !short.is_empty() && alerts_ids::by_name(short, id)
}

fn hits_either(x: &[u8], y: &[u8], id: &[u8]) -> bool
    ensures { result ≡
        hits_stop_id x.now id.now || hits_stop_id y.now id.now }
{
    hits_stop(x, id) || hits_stop(y, id)
}

fn answer(ask: Ask, x: &[u8], y: &[u8], id: &[u8]) -> bool
    ensures { result ≡ answer_of ask x.now y.now id.now }
{
    match ask {
        Ask::MeetsTrip => meets_trip(x, y, id),
        Ask::MeetsRoute => meets_id(x, id),
        Ask::MeetsStops => meets_stop(x, y, id),
        Ask::HitsTrip => hits_trip(x, y, id),
        Ask::HitsRoute => hits_route(x, y, id),
        Ask::HitsStops => hits_either(x, y, id),
    }
}

// An id is asked only while none has said yes.
fn or_answer(hit: bool, ask: Ask, x: &[u8], y: &[u8], id: &[u8]) -> bool
    ensures { result ≡ hit || answer_of ask x.now y.now id.now }
{
    hit || answer(ask, x, y, id)
}

// Whether some id says yes, and the place past the list.
#[derive(Drop)]
pub struct Reply {
    pub hit: bool,
    pub next: usize,
}

// The list of ids at `at`, each read once.
pub fn any_id(ask: Ask, x: &[u8], y: &[u8], s: &[u8], at: usize) -> Reply
    ensures { Asked ask x.now y.now s.now at result.hit result.next }
{
    let n = formats_read::number(s, at);
    let mut p = n.next;
    let mut hit = false;
    for _ in 0..n.value {
        let t = formats_read::text(s, p);
        hit = or_answer(hit, ask, x, y, &s[t.from..t.to]);
        p = t.to;
    }
    Reply { hit, next: p }
}
