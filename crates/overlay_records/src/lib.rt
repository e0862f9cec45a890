// The vehicles and the alerts of a feed by checked reading.
#![tactic(auto)]

ghost use Rattle.std.specs.Prelude.{◌≤◌, length};
ghost use Rattle.formats.specs.Class.{printable};
ghost use Rattle.formats.specs.Format.{float, list, ◌&◌};
ghost use Rattle.formats_check.specs.Promises.Checked.{Fine, Tested};
ghost use Rattle.formats_check.specs.Laws.Climbing.{Climbs, Entered, weightless, whatever};
ghost use Rattle.formats_check.specs.Laws.Walks.{Each};
ghost use Rattle.decode.specs.Trip.{instant};
ghost use Rattle.alerts.specs.Alert.{alert, ids};
ghost use Rattle.overlay.specs.State.{vehicle, vehicle_entry};
ghost use Rattle.overlay_records.specs.Promises.Vehicles.{vehicle_good, vehicles_good};

// Where a vehicle is, and when that was.
fn position(old: &[u8], at: usize) -> Option<usize>
    ensures { Fine (float & float & instant) old.now at result }
{
    let p = formats_check::float(old, at)?;
    let q = formats_check::float(old, p)?;
    overlay_trip::instant(old, q)
}

fn vehicle(old: &[u8], at: usize) -> Option<usize>
    ensures { Fine vehicle old.now at result }
{
    let p = formats_check::optional_printable(64, old, at)?;
    position(old, p)
}

fn vehicle_entry(old: &[u8], at: usize) -> Option<(usize, usize, usize)>
    ensures { Entered 64 printable vehicle_good old.now at result }
{
    let (a, e) = formats_check::printable_at(64, old, at)?;
    let q = vehicle(old, e)?;
    Some((a, e, q))
}

// n vehicles one after another, ascending by key: the walk keeps the place of the last key.
fn vehicles_from(n: u64, old: &[u8], at: usize) -> Option<usize>
    requires { at ≤ length old.now }
    ensures { Climbs 64 printable vehicle_good weightless (whatever n) n old.now at result }
{
    let mut p = at;
    // No Option of a place: the contract of `follows` speaks of these three.
    let mut first = true;
    let mut b: usize = 0;
    let mut d: usize = 0;
    for _ in 0..n {
        let (a, e, q) = vehicle_entry(old, p)?;
        if !formats_check::follows(first, old, b, d, a, e) {
            return None;
        }
        p = q;
        first = false;
        b = a;
        d = e;
    }
    Some(p)
}

pub fn vehicles(old: &[u8], at: usize) -> Option<usize>
    ensures { Tested (list 1024 vehicle_entry) vehicles_good old.now at result }
{
    let (n, p) = formats_check::number_at(old, at)?;
    if 1024 < n {
        return None;
    }
    vehicles_from(n, old, p)
}

// The ids of trips, routes and stops that an alert names.
fn informed(old: &[u8], at: usize) -> Option<usize>
    ensures { Fine (ids & ids & ids) old.now at result }
{
    let p = formats_check::printables(32, 64, old, at)?;
    let q = formats_check::printables(32, 64, old, p)?;
    formats_check::printables(32, 64, old, q)
}

// An alert: class 3 is well-formed UTF-8.
fn alert(old: &[u8], at: usize) -> Option<usize>
    ensures { Fine alert old.now at result }
{
    let p = formats_check::optional_text(3, 512, old, at)?;
    let q = formats_check::optional_text(3, 2048, old, p)?;
    let u = formats_check::optional_text(3, 64, old, q)?;
    informed(old, u)
}

// n alerts one after another.
fn alerts_from(n: u64, old: &[u8], at: usize) -> Option<usize>
    requires { at ≤ length old.now }
    ensures { Each alert n old.now at result }
{
    let mut p = at;
    for _ in 0..n {
        p = alert(old, p)?;
    }
    Some(p)
}

pub fn alerts(old: &[u8], at: usize) -> Option<usize>
    ensures { Fine (list 256 alert) old.now at result }
{
    let (n, p) = formats_check::number_at(old, at)?;
    if 256 < n {
        return None;
    }
    alerts_from(n, old, p)
}
