// The record of a leg, the vehicle of a trip and the alerts of its feed, in a whole overlay whose places are noted.
#![tactic(auto)]

ghost use Rattle.calendar.specs.Paris.{paris_digits};
ghost use Rattle.formats_write.specs.Promises.Given.{given_number};
ghost use Rattle.overlay.specs.Lookup.{get_trip, find_trip_by_descriptor};
ghost use Rattle.overlay_noted.specs.Promises.Noted.{Noted};
ghost use Rattle.overlay_resolve.specs.Promises.Shown.{ShowsVehicle, ShowsAlerts, Resolves};
ghost use Rattle.overlay_resolve.specs.Promises.Shown.{in_trips, by_route, record_for};

use vehicle_place::VehiclePlace;

// The place of a trip's vehicle.
pub fn vehicle(old: &[u8], noted: &[u32], trip: &[u8]) -> Option<VehiclePlace>
    requires { Noted old.now noted.now }
    ensures { ShowsVehicle old.now trip.now result }
{
    let n = overlay_ids::feed_end(trip);
    let r = overlay_places::feed_rank(old, noted, &trip[..n])?;
    let p = overlay_places::vehicles_place(noted, r);
    overlay_vehicle::vehicle(old, p, trip)
}

// The place of the alerts of a trip's feed.
pub fn alerts(old: &[u8], noted: &[u32], trip: &[u8]) -> Option<usize>
    requires { Noted old.now noted.now }
    ensures { ShowsAlerts old.now trip.now result }
{
    let n = overlay_ids::feed_end(trip);
    let r = overlay_places::feed_rank(old, noted, &trip[..n])?;
    Some(overlay_places::alerts_place(noted, r))
}

// A feed's record by a trip id.
fn trip_in_feed(old: &[u8], noted: &[u32], feed: &[u8], trip: &[u8]) -> Option<(usize, usize)>
    requires { Noted old.now noted.now }
    ensures { Resolves (in_trips feed.now (get_trip feed.now trip.now))
        old.now result }
{
    let r = overlay_places::feed_rank(old, noted, feed)?;
    let p = overlay_find::get_trip(old, noted, r, feed, trip)?;
    Some((p, overlay_places::entry_place(noted, r)))
}

// A feed's record by a leg's descriptor.
fn route_in_feed(
    old: &[u8],
    noted: &[u32],
    feed: &[u8],
    route: &[u8],
    direction: Option<u64>,
    date: &[u8],
) -> Option<(usize, usize)>
    requires { Noted old.now noted.now }
    ensures { Resolves (in_trips feed.now
        (find_trip_by_descriptor feed.now route.now (given_number direction) date.now))
        old.now result }
{
    let r = overlay_places::feed_rank(old, noted, feed)?;
    let p = overlay_find::by_descriptor(old, noted, r, feed, route, direction, date)?;
    Some((p, overlay_places::entry_place(noted, r)))
}

// The record of a leg by its descriptor, in its route's feed.
fn by_route(
    old: &[u8],
    noted: &[u32],
    route: &[u8],
    direction: Option<u64>,
    date: &[u8],
) -> Option<(usize, usize)>
    requires { Noted old.now noted.now }
    ensures { Resolves (by_route route.now (given_number direction) date.now) old.now result }
{
    if route.len() == 0 {
        return None;
    }
    let n = overlay_ids::feed_end(route);
    route_in_feed(old, noted, &route[..n], route, direction, date)
}

// The record of a leg: by its trip id, else by its descriptor.
pub fn resolve(
    old: &[u8],
    noted: &[u32],
    trip: &[u8],
    route: &[u8],
    direction: Option<u64>,
    date: &[u8],
) -> Option<(usize, usize)>
    requires { Noted old.now noted.now }
    ensures { Resolves (record_for trip.now route.now (given_number direction) date.now)
        old.now result }
{
    let n = overlay_ids::feed_end(trip);
    // Not `or_else`: tried, its proof did not close.
    match trip_in_feed(old, noted, &trip[..n], trip) {
        Some((p, e)) => Some((p, e)),
        None => by_route(old, noted, route, direction, date),
    }
}

// The record of a leg that departs at a time in seconds: its date is the Paris date.
pub fn resolve_leg(
    old: &[u8],
    noted: &[u32],
    trip: &[u8],
    route: &[u8],
    direction: Option<u64>,
    departs: u64,
) -> Option<(usize, usize)>
    requires { Noted old.now noted.now }
    ensures { Resolves (record_for trip.now route.now (given_number direction) (paris_digits departs))
        old.now result }
{
    let date = calendar::paris_digits(departs);
    resolve(old, noted, trip, route, direction, &date)
}
