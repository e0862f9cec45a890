// The legs of a card written anew: look-ups for their stops, their middle stops one by one, and the leg whole.
#![tactic(auto)]

ghost use Rattle.formats_write.specs.Promises.Given.{given_number};
ghost use Rattle.journey_stops.specs.Promises.Stops.{LooksUp, EventsAt, MiddleEvents, StopAnew, StopsAnew};
ghost use Rattle.journey_stops.specs.Promises.Stops.{ListAnew, LegAnew, EndpointAt, CancelsBy, LegKnown};

use journey_leg::LegRealtime;
use journey_times::{Event, Known, StopRealtime};
use vehicle_place::VehiclePlace;

// Arrival and departure of a stop.
#[derive(Drop)]
pub struct StopEvents {
    pub arrival: StopRealtime,
    pub departure: StopRealtime,
}

// What is known of a stop, by the record that was found for the leg's trip in the overlay b.
pub fn known(
    old: &[u8],
    row: Option<usize>,
    feed: &[u8],
    sequence: Option<u64>,
    stop: &[u8],
) -> Known
    ensures { LooksUp old.now row feed.now (given_number sequence) stop.now result }
{
    let Some(p) = row else {
        return Known::Nothing;
    };
    let Some(u) = overlay_updates::find_update(old, p, feed, sequence, stop) else {
        return Known::Trip(p);
    };
    Known::Update(p, u)
}

// The events of a stop whose scheduled arrival and departure stand at `at`.
fn events_at(card: &[u8], at: usize, old: &[u8], known: Known) -> StopEvents
    ensures { EventsAt card.now at old.now known result }
{
    let a = journey_times::scheduled(card, at);
    let d = journey_times::scheduled(card, formats_skip::past_number(card, at));
    StopEvents {
        arrival: journey_times::apply_time(Event::Arrival, a, old, known),
        departure: journey_times::apply_time(Event::Departure, d, old, known),
    }
}

// The events of the middle stop at `at`.
fn middle_events(card: &[u8], at: usize, old: &[u8], row: Option<usize>, feed: &[u8]) -> StopEvents
    ensures { MiddleEvents card.now at old.now row feed.now result }
{
    let t = formats_read::text(card, at);
    let from = t.from;
    let to = t.to;
    let k = known(old, row, feed, None, &card[from..to]);
    events_at(card, to, old, k)
}

// The middle stop from `at` up to `to`.
fn middle(
    card: &[u8],
    at: usize,
    to: usize,
    old: &[u8],
    row: Option<usize>,
    feed: &[u8],
    out: &mut [u8],
    w: Option<usize>,
) -> Option<usize>
    ensures { StopAnew card.now at to old.now row feed.now
        out.old w out.new result }
{
    let e = middle_events(card, at, old, row, feed);
    let a = e.arrival;
    let d = e.departure;
    journey_leg::middle(card, at, to, out, w, a, d)
}

// The n middle stops from `at` on.
fn each_middle(
    card: &[u8],
    at: usize,
    n: u64,
    old: &[u8],
    row: Option<usize>,
    feed: &[u8],
    out: &mut [u8],
    w: Option<usize>,
) -> Option<usize>
    ensures { StopsAnew card.now at n old.now row feed.now
        out.old w out.new result }
{
    let mut p = at;
    let mut left = n;
    let mut k = w;
    while 0 < left {
        let e = journey_places::past_middle(card, p);
        k = middle(card, p, e, old, row, feed, out, k);
        p = e;
        left -= 1;
    }
    k
}

// The list of middle stops at `at`.
fn middles(
    card: &[u8],
    at: usize,
    old: &[u8],
    row: Option<usize>,
    feed: &[u8],
    out: &mut [u8],
    w: Option<usize>,
) -> Option<usize>
    ensures { ListAnew card.now at old.now row feed.now
        out.old w out.new result }
{
    let n = formats_read::number(card, at);
    let q = formats_write::number(out, w, n.value);
    each_middle(card, n.next, n.value, old, row, feed, out, q)
}

// The transit leg from `at` up to `to`, by what look-ups gave for it.
pub fn transit(
    card: &[u8],
    at: usize,
    to: usize,
    old: &[u8],
    row: Option<usize>,
    feed: &[u8],
    r: LegRealtime,
    v: Option<VehiclePlace>,
    out: &mut [u8],
    w: Option<usize>,
) -> Option<usize>
    ensures { LegAnew r v card.now at to old.now row feed.now
        out.old w out.new result }
{
    let parts = journey_places::changing(card, at);
    let w1 = journey_leg::fore(card, at, parts, out, w, r, v);
    let w2 = middles(card, parts.middles, old, row, feed, out, w1);
    let end = journey_places::past_middles(card, parts.middles);
    formats_write::stretch(out, w2, card, end, to)
}

// An endpoint of a leg, whose stop, sequence and scheduled time stand at these places.
fn endpoint(
    card: &[u8],
    e: Event,
    stop: usize,
    sequence: usize,
    time: usize,
    old: &[u8],
    row: Option<usize>,
    feed: &[u8],
) -> StopRealtime
    ensures { EndpointAt card.now e stop sequence time old.now row
        feed.now result }
{
    let t = formats_read::text(card, stop);
    let from = t.from;
    let to = t.to;
    let n = formats_read::number(card, sequence).value;
    let k = known(old, row, feed, Some(n), &card[from..to]);
    journey_times::apply_time(e, journey_times::scheduled(card, time), old, k)
}

// Whether the record that was found is of a cancelled trip.
fn cancels(old: &[u8], row: Option<usize>) -> bool
    ensures { CancelsBy old.now row result }
{
    match row {
        None => false,
        Some(p) => journey_times::cancelled(old, p),
    }
}

// What look-ups give for the transit leg at `at`.
pub fn endpoints(card: &[u8], at: usize, old: &[u8], row: Option<usize>, feed: &[u8]) -> LegRealtime
    ensures { LegKnown card.now at old.now row feed.now result }
{
    let p = journey_places::leg(card, at);
    let departs = endpoint(
        card,
        Event::Departure,
        p.from,
        p.board,
        p.departure,
        old,
        row,
        feed,
    );
    let arrives = endpoint(
        card,
        Event::Arrival,
        p.to,
        p.alight,
        p.arrival,
        old,
        row,
        feed,
    );
    let cancels = cancels(old, row);
    LegRealtime {
        departs,
        arrives,
        cancels,
    }
}
