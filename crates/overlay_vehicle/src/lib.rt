// The vehicle of a trip among those of a feed that stand in an overlay: the first with the trip's id, else the one
// keyed by it.
#![tactic(auto)]

ghost use Rattle.overlay_vehicle.specs.Promises.Vehicle.{MakesTrip, Seen, FindsVehicle, ReadsVehicle};
ghost use Rattle.overlay_vehicle.specs.Promises.Vehicle.{SeesVehicle};

use vehicle_place::VehiclePlace;

// Whether the vehicle at `at` makes a trip.
fn makes_trip(old: &[u8], at: usize, trip: &[u8]) -> bool
    ensures { MakesTrip old.now at trip.now result }
{
    if old.len() <= at {
        return false;
    }
    if old[at] != 1 {
        return false;
    }
    overlay_seek::is_text(old, at + 1, trip)
}

// The first vehicle that is keyed by a trip's id, if one was seen; else the one at p, whose id ends at m, if it is.
fn or_keyed(seen: Option<usize>, old: &[u8], p: usize, m: usize, trip: &[u8]) -> Option<usize>
    ensures { Seen seen old.now p m trip.now result }
{
    match seen {
        Some(_) => seen,
        None => overlay_seek::is_text(old, p, trip).then_some(m),
    }
}

// Of the vehicles at `at` that of a trip, in one pass.
pub fn find_vehicle(old: &[u8], at: usize, trip: &[u8]) -> Option<usize>
    ensures { FindsVehicle old.now at trip.now result }
{
    let c = formats_read::number(old, at);
    let mut p = c.next;
    let mut seen = None;
    for _ in 0..c.value {
        let m = formats_skip::past_text(old, p);
        if makes_trip(old, m, trip) {
            return Some(m);
        }
        seen = or_keyed(seen, old, p, m, trip);
        p = overlay_skip::past_vehicle(old, m);
    }
    seen
}

// The place of the vehicle at `at`.
pub fn read_vehicle(old: &[u8], at: usize) -> VehiclePlace
    ensures { ReadsVehicle old.now at result }
{
    let a = formats_skip::past_optional_text(old, at);
    let b = formats_skip::past_float(old, a);
    let c = formats_skip::past_float(old, b);
    vehicle_place::read(old, a, b, c)
}

// The place of a trip's vehicle, of those at `at`.
pub fn vehicle(old: &[u8], at: usize, trip: &[u8]) -> Option<VehiclePlace>
    ensures { SeesVehicle old.now at trip.now result }
{
    let p = find_vehicle(old, at, trip)?;
    Some(read_vehicle(old, p))
}
