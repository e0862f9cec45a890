// A transit leg finished by look-ups in the overlay b, whose places are noted: its record, its vehicle, and the leg
// written anew.
#![tactic(auto)]

ghost use Rattle.overlay_noted.specs.Promises.Noted.{Noted};
ghost use Rattle.journey_finish.specs.Promises.Finish.{LegResolved, RowAt, Looks, LegVehicle, FinishesBy};
ghost use Rattle.journey_finish.specs.Promises.Finish.{Finishes, LegDone, EachDone, LegsDone};

use journey_leg::LegRealtime;
use vehicle_place::VehiclePlace;

// The record of the leg at `at`.
fn resolved(card: &[u8], at: usize, old: &[u8], noted: &[u32]) -> Option<(usize, usize)>
    requires { Noted old.now noted.now }
    ensures { LegResolved card.now at old.now result }
{
    let p = journey_places::leg(card, at);
    let trip = formats_read::text(card, p.trip);
    let route = formats_read::text(card, p.route);
    let d = formats_read::optional_number(card, p.direction);
    let n = formats_read::number(card, p.departure).value;
    let f = trip.from;
    let t = trip.to;
    let g = route.from;
    let u = route.to;
    overlay_resolve::resolve_leg(old, noted, &card[f..t], &card[g..u], d, n / 2)
}

// Where a leg's record stands, and from where to where the id of its feed.
#[derive(Drop)]
struct RowPlace {
    row: Option<usize>,
    from: usize,
    to: usize,
}

fn row(card: &[u8], at: usize, old: &[u8], noted: &[u32]) -> RowPlace
    requires { Noted old.now noted.now }
    ensures { RowAt card.now at old.now result }
{
    match resolved(card, at, old, noted) {
        Some((p, e)) => {
            let id = formats_read::text(old, e);
            RowPlace {
                row: Some(p),
                from: id.from,
                to: id.to,
            }
        }
        None => RowPlace {
            row: None,
            from: 0,
            to: 0,
        },
    }
}

// What look-ups give for the leg at `at`.
pub fn look(card: &[u8], at: usize, old: &[u8], noted: &[u32]) -> LegRealtime
    requires { Noted old.now noted.now }
    ensures { Looks card.now at old.now result }
{
    let r = row(card, at, old, noted);
    let row = r.row;
    let f = r.from;
    let t = r.to;
    journey_stops::endpoints(card, at, old, row, &old[f..t])
}

// The place of its vehicle.
fn vehicle(card: &[u8], at: usize, old: &[u8], noted: &[u32]) -> Option<VehiclePlace>
    requires { Noted old.now noted.now }
    ensures { LegVehicle card.now at old.now result }
{
    let p = journey_places::leg(card, at);
    let trip = formats_read::text(card, p.trip);
    let f = trip.from;
    let t = trip.to;
    overlay_resolve::vehicle(old, noted, &card[f..t])
}

// The leg from `at` up to `to`, by the record that was found and the id of its feed.
fn finish_by(
    card: &[u8],
    at: usize,
    to: usize,
    old: &[u8],
    noted: &[u32],
    row: Option<usize>,
    feed: &[u8],
    out: &mut [u8],
    w: Option<usize>,
) -> Option<usize>
    requires { Noted old.now noted.now }
    ensures { FinishesBy card.now at to old.now row feed.now
        out.old w out.new result }
{
    let r = journey_stops::endpoints(card, at, old, row, feed);
    let v = vehicle(card, at, old, noted);
    journey_stops::transit(card, at, to, old, row, feed, r, v, out, w)
}

// The leg from `at` up to `to`, finished.
pub fn finish(
    card: &[u8],
    at: usize,
    to: usize,
    old: &[u8],
    noted: &[u32],
    out: &mut [u8],
    w: Option<usize>,
) -> Option<usize>
    requires { Noted old.now noted.now }
    ensures { Finishes card.now at to old.now
        out.old w out.new result }
{
    let r = row(card, at, old, noted);
    let row = r.row;
    let f = r.from;
    let t = r.to;
    finish_by(card, at, to, old, noted, row, &old[f..t], out, w)
}

// The leg from `at` up to `to`: a walk is copied as it stands.
fn leg(
    card: &[u8],
    at: usize,
    to: usize,
    old: &[u8],
    noted: &[u32],
    out: &mut [u8],
    w: Option<usize>,
) -> Option<usize>
    requires { Noted old.now noted.now }
    ensures { LegDone card.now at to old.now out.old w out.new result }
{
    if card.len() <= at {
        return None;
    }
    if formats::tag(card, at) == 1 {
        let q = formats_write::byte(out, w, 1);
        return finish(card, at + 1, to, old, noted, out, q);
    }
    formats_write::stretch(out, w, card, at, to)
}

// The n legs from `at` on.
fn each_leg(
    card: &[u8],
    at: usize,
    n: u64,
    old: &[u8],
    noted: &[u32],
    out: &mut [u8],
    w: Option<usize>,
) -> Option<usize>
    requires { Noted old.now noted.now }
    ensures { EachDone card.now at n old.now out.old w out.new result }
{
    let mut p = at;
    let mut left = n;
    let mut k = w;
    while 0 < left {
        let e = journey_places::past_leg(card, p);
        k = leg(card, p, e, old, noted, out, k);
        p = e;
        left -= 1;
    }
    k
}

// The list of legs at `at`, each finished.
pub fn legs(
    card: &[u8],
    at: usize,
    old: &[u8],
    noted: &[u32],
    out: &mut [u8],
    w: Option<usize>,
) -> Option<usize>
    requires { Noted old.now noted.now }
    ensures { LegsDone card.now at old.now out.old w out.new result }
{
    let n = formats_read::number(card, at);
    let q = formats_write::number(out, w, n.value);
    each_leg(card, n.next, n.value, old, noted, out, q)
}
