// A transit leg written anew from what look-ups gave: what isn't taken is copied as it stands.
#![tactic(auto)]

ghost use Rattle.std.specs.Prelude.{◌≡◌};
ghost use Rattle.formats_write.specs.Promises.Adds.{Adds};
ghost use Rattle.journey_leg.specs.Promises.Leg.{live_of, told_w, PutsTimes, PutsFlag, PutsPlace, PutsMarks};
ghost use Rattle.journey_leg.specs.Promises.Leg.{PutsFore, PutsEvent, PutsMiddle};

use journey_places::ChangingPlaces;
use journey_times::StopRealtime;
use vehicle_place::VehiclePlace;

// What look-ups gave for a leg: its endpoints, and whether its trip is cancelled.
#[derive(Clone, Copy)]
pub struct LegRealtime {
    pub departs: StopRealtime,
    pub arrives: StopRealtime,
    pub cancels: bool,
}

// Either endpoint has realtime.
pub fn live(r: LegRealtime) -> bool
    ensures { result ≡ live_of r }
{
    let d = r.departs;
    let a = r.arrives;
    if d.has { true } else { a.has }
}

fn wide(d: i32) -> i64
    ensures { result ≡ d }
{
    d as i64
}

// The times and delays of both endpoints.
fn told(out: &mut [u8], w: Option<usize>, d: StopRealtime, a: StopRealtime) -> Option<usize>
    ensures { Adds out.old w out.new result (told_w d a) }
{
    let w1 = formats_write::optional_signed(out, w, Some(d.time));
    let w2 = formats_write::optional_signed(out, w1, Some(a.time));
    let w3 = formats_write::optional_signed(out, w2, Some(wide(d.delay)));
    formats_write::optional_signed(out, w3, Some(wide(a.delay)))
}

// The realtime times and delays that stand from `at` up to `to`, or those of the endpoints, where the leg is live.
fn times(
    card: &[u8],
    at: usize,
    to: usize,
    out: &mut [u8],
    w: Option<usize>,
    live: bool,
    d: StopRealtime,
    a: StopRealtime,
) -> Option<usize>
    ensures { PutsTimes live d a card.now at to out.old w out.new result }
{
    if live {
        return told(out, w, d, a);
    }
    formats_write::stretch(out, w, card, at, to)
}

// Whether the leg is cancelled.
fn flag(
    card: &[u8],
    at: usize,
    to: usize,
    out: &mut [u8],
    w: Option<usize>,
    cancels: bool,
) -> Option<usize>
    ensures { PutsFlag cancels card.now at to out.old w out.new result }
{
    if cancels {
        return formats_write::number(out, w, 1);
    }
    formats_write::stretch(out, w, card, at, to)
}

// The vehicle's place.
fn place(
    card: &[u8],
    at: usize,
    to: usize,
    out: &mut [u8],
    w: Option<usize>,
    v: Option<VehiclePlace>,
) -> Option<usize>
    ensures { PutsPlace v card.now at to out.old w out.new result }
{
    match v {
        None => formats_write::stretch(out, w, card, at, to),
        Some(p) => vehicle_place::write(out, w, p),
    }
}

// Times and delays, from `at` up to `flagged`, and whether the leg is cancelled, up to `to`.
fn marks(
    card: &[u8],
    at: usize,
    flagged: usize,
    to: usize,
    out: &mut [u8],
    w: Option<usize>,
    r: LegRealtime,
) -> Option<usize>
    ensures { PutsMarks r card.now at flagged to out.old w out.new result }
{
    let d = r.departs;
    let a = r.arrives;
    let q = times(card, at, flagged, out, w, live(r), d, a);
    flag(card, flagged, to, out, q, r.cancels)
}

// The leg at `at`, up to its middle stops.
pub fn fore(
    card: &[u8],
    at: usize,
    parts: ChangingPlaces,
    out: &mut [u8],
    w: Option<usize>,
    r: LegRealtime,
    v: Option<VehiclePlace>,
) -> Option<usize>
    ensures { PutsFore r v card.now at parts out.old w out.new result }
{
    let w1 = formats_write::stretch(out, w, card, at, parts.realtime);
    let w2 = marks(
        card,
        parts.realtime,
        parts.cancelled,
        parts.place,
        out,
        w1,
        r,
    );
    place(card, parts.place, parts.middles, out, w2, v)
}

// An optional time that stands from `at` up to `to`, or the event's own.
fn event(
    card: &[u8],
    at: usize,
    to: usize,
    out: &mut [u8],
    w: Option<usize>,
    r: StopRealtime,
) -> Option<usize>
    ensures { PutsEvent r card.now at to out.old w out.new result }
{
    if r.has {
        return formats_write::optional_signed(out, w, Some(r.time));
    }
    formats_write::stretch(out, w, card, at, to)
}

// The middle stop from `at` up to `to`, whose arrival and departure are a and d.
pub fn middle(
    card: &[u8],
    at: usize,
    to: usize,
    out: &mut [u8],
    w: Option<usize>,
    a: StopRealtime,
    d: StopRealtime,
) -> Option<usize>
    ensures { PutsMiddle a d card.now at to out.old w out.new result }
{
    let arrival = journey_places::middle_realtime(card, at);
    let departure = formats_skip::past_optional_number(card, arrival);
    let w1 = formats_write::stretch(out, w, card, at, arrival);
    let w2 = event(card, arrival, departure, out, w1, a);
    event(card, departure, to, out, w2, d)
}
