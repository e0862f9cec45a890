// The body of a feed as an alert sheet or a vehicle sheet leaves it, written part by part.
#![tactic(auto)]

ghost use Rattle.std.specs.Prelude.{◌≡◌, List, ℕ, ℤ, pos, ◌-ℤ◌, length};
ghost use Rattle.maps.specs.Map.{puts};
ghost use Rattle.maps.specs.Order.{texts};
ghost use Rattle.formats.specs.Number.{zag};
ghost use Rattle.formats.specs.Format.{write};
ghost use Rattle.formats_write.specs.Promises.Adds.{Adds};
ghost use Rattle.alerts.specs.Alert.{Alert};
ghost use Rattle.overlay.specs.State.{Feed, Vehicles, feed, vehicles_of};
ghost use Rattle.overlay.specs.Change.{without_stale};
ghost use Rattle.overlay_feeds.specs.Promises.Parts.{PartsOf};
ghost use Rattle.overlay_bodies.specs.Promises.Bodies.{AlertsIn, Left, VehiclesIn};
ghost use Rattle.overlay_bodies.specs.Promises.Bodies.{with_alerts, with_vehicles, front_w, Lists};

use overlay_feeds::Parts;

// A feed that stands from `body` on, with its parts at p: a sheet's alerts in place of its own.
pub fn alerts_over(
    out: &mut [u8],
    w: Option<usize>,
    old: &[u8],
    body: usize,
    p: Parts,
    sheet: &[u8],
) -> Option<usize>
    ensures { (vs : List Alert) (F : Feed) (e : ℕ) → AlertsIn sheet.now vs
        → PartsOf old.now F body e p
        → Adds out.old w out.new result (write feed (with_alerts F vs)) }
{
    let w1 = formats_write::stretch(out, w, old, body, p.alerts);
    let n = sheet.len();
    formats_write::stretch(out, w1, sheet, 1, n)
}

// How many vehicles are left of a sheet's and of those that stand at `at`: up to 1,024, or more than that.
pub fn count_left(sheet: &[u8], old: &[u8], at: usize, limit: u64) -> u64
    ensures { Left sheet.now old.now at limit result }
{
    let n = formats_read::number(sheet, 1);
    let m = formats_read::number(old, at);
    overlay_merge::count_entries(sheet, n.next, n.value, old, m.next, m.value, limit)
}

// The list of them: `kept` are left.
fn write_left(
    out: &mut [u8],
    w: Option<usize>,
    kept: u64,
    sheet: &[u8],
    old: &[u8],
    at: usize,
    limit: u64,
) -> Option<usize>
    ensures { Lists out.old w out.new result sheet.now old.now at limit kept }
{
    let n = formats_read::number(sheet, 1);
    let m = formats_read::number(old, at);
    let w1 = formats_write::number(out, w, kept);
    overlay_merge::write_entries(out, w1, sheet, n.next, n.value, old, m.next, m.value, limit)
}

// Timestamp, count of all keys and trips of a feed that stands from `body` on.
fn write_front(out: &mut [u8], w: Option<usize>, old: &[u8], body: usize, p: Parts) -> Option<usize>
    ensures { (F : Feed) (e : ℕ) → PartsOf old.now F body e p
        → Adds out.old w out.new result (front_w F) }
{
    let w1 = formats_write::stretch(out, w, old, body, p.counted);
    let n = formats_read::number(old, p.trips);
    let w2 = formats_write::number(out, w1, n.value);
    formats_write::stretch(out, w2, old, p.trips, p.vehicles)
}

// A feed that stands from `body` on, with the `kept` vehicles that a sheet leaves it, and its keys counted.
pub fn vehicles_over(
    out: &mut [u8],
    w: Option<usize>,
    kept: u64,
    sheet: &[u8],
    limit: u64,
    old: &[u8],
    body: usize,
    p: Parts,
) -> Option<usize>
    ensures { (F : Feed) (e : ℕ) (xs : Vehicles) (clock : ℤ) → zag limit ≡ clock -ℤ pos 900
        → PartsOf old.now F body e p
        → VehiclesIn sheet.now old.now p.vehicles xs (vehicles_of F)
        → kept ≡ length (without_stale clock (puts texts xs (vehicles_of F)))
        → Adds out.old w out.new result
        (write feed (with_vehicles F (without_stale clock (puts texts xs (vehicles_of F))))) }
{
    let w1 = write_front(out, w, old, body, p);
    let w2 = write_left(out, w1, kept, sheet, old, p.vehicles, limit);
    formats_write::stretch(out, w2, old, p.alerts, p.end)
}
