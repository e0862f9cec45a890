// An overlay as an alert sheet or a vehicle sheet leaves it: the feed that the sheet is for is written anew or made,
// the rest is copied. What question 7 refuses is answered as what does not fit, and nothing is written.
#![tactic(auto)]

ghost use Rattle.std.specs.Prelude.{◌≡◌, true, List, length, ℤ, pos, ◌-ℤ◌, Some};
ghost use Rattle.maps.specs.Map.{puts};
ghost use Rattle.maps.specs.Order.{texts};
ghost use Rattle.formats.specs.Number.{zag};
ghost use Rattle.formats.specs.Format.{list, write};
ghost use Rattle.formats_judge.specs.Judged.{ok};
ghost use Rattle.formats_write.specs.Promises.Adds.{Adds};
ghost use Rattle.formats_read.specs.Promises.Here.{Here};
ghost use Rattle.alerts.specs.Alert.{Alert, alert};
ghost use Rattle.overlay.specs.State.{State, Vehicles, overlay, vehicles_of};
ghost use Rattle.overlay.specs.Change.{feed_at, after_alerts, without_stale, after_vehicles};
ghost use Rattle.overlay.specs.Valid.{valid};
ghost use Rattle.overlay_feeds.specs.Promises.Parts.{ReadsParts};
ghost use Rattle.overlay_frame.specs.Promises.Body.{BodyAt};
ghost use Rattle.overlay_frame.specs.Promises.Changes.{Changes};
ghost use Rattle.overlay_bodies.specs.Promises.Bodies.{AlertsIn, VehiclesIn, VehiclesAlone};

use overlay_feeds::Parts;
use overlay_frame::{FeedSpot, NO_FEED};

// The feed whose body stands in `home` at `body` gets a sheet's alerts.
fn put_alerts(
    out: &mut [u8],
    old: &[u8],
    end: usize,
    feed: &[u8],
    from: usize,
    known: bool,
    count: u64,
    home: &[u8],
    body: usize,
    sheet: &[u8],
) -> Option<usize>
    ensures { (s : State) (vs : List Alert)
        → BodyAt old.now end s feed.now from known count home.now body
        → AlertsIn sheet.now vs → ok 7 (list 256 alert) vs ≡ true
        → Changes out.old out.new result (after_alerts feed.now vs s) }
{
    let version = overlay_feeds::read_head(old).version;
    let p = overlay_feeds::read_parts(home, body);
    let to = overlay_frame::behind(known, p.end, from);
    let w1 = overlay_frame::opening(out, Some(0), version, count, old, from, feed);
    let w2 = overlay_bodies::alerts_over(out, w1, home, body, p, sheet);
    overlay_frame::closing(out, w2, old, to, end)
}

// AN ALERT SHEET: the state that ends at `end`, with the sheet's alerts for those of the feed.
pub fn after_alerts(
    out: &mut [u8],
    old: &[u8],
    end: usize,
    feed: &[u8],
    sheet: &[u8],
) -> Option<usize>
    ensures { (s : State) (vs : List Alert) → Here overlay old.now 0 end s → valid s ≡ true
        → AlertsIn sheet.now vs → ok 7 (list 256 alert) vs ≡ true
        → Changes out.old out.new result (after_alerts feed.now vs s) }
{
    let spot = overlay_frame::spot(old, feed)?;
    match spot {
        FeedSpot::Known(from, body, count) => {
            put_alerts(out, old, end, feed, from, true, count, old, body, sheet)
        }
        FeedSpot::New(from, count) => {
            put_alerts(out, old, end, feed, from, false, count, &NO_FEED, 0, sheet)
        }
    }
}

// The feed whose body stands in `home` at `body`, with its parts at p, gets the `kept` vehicles that a sheet leaves it.
fn write_vehicles(
    out: &mut [u8],
    old: &[u8],
    end: usize,
    feed: &[u8],
    from: usize,
    known: bool,
    count: u64,
    home: &[u8],
    body: usize,
    p: Parts,
    sheet: &[u8],
    limit: u64,
    kept: u64,
) -> Option<usize>
    ensures { (s : State) (xs : Vehicles) (clock : ℤ)
        → BodyAt old.now end s feed.now from known count home.now body
        → ReadsParts home.now body p → zag limit ≡ clock -ℤ pos 900
        → VehiclesIn sheet.now home.now p.vehicles xs
        (vehicles_of (feed_at feed.now s))
        → kept ≡ length (without_stale clock (puts texts xs (vehicles_of (feed_at feed.now s))))
        → Adds out.old (Some 0) out.new result
        (write overlay (after_vehicles feed.now xs clock s)) }
{
    let version = std::num::wrapping_add_u64(overlay_feeds::read_head(old).version, 1);
    let to = overlay_frame::behind(known, p.end, from);
    let w1 = overlay_frame::opening(out, Some(0), version, count, old, from, feed);
    let w2 = overlay_bodies::vehicles_over(out, w1, kept, sheet, limit, home, body, p);
    overlay_frame::closing(out, w2, old, to, end)
}

// The same, with the parts read and the vehicles counted first.
fn put_vehicles(
    out: &mut [u8],
    old: &[u8],
    end: usize,
    feed: &[u8],
    from: usize,
    known: bool,
    count: u64,
    home: &[u8],
    body: usize,
    sheet: &[u8],
    limit: u64,
) -> Option<usize>
    ensures { (s : State) (xs : Vehicles) (clock : ℤ)
        → BodyAt old.now end s feed.now from known count home.now body
        → zag limit ≡ clock -ℤ pos 900 → VehiclesAlone sheet.now xs
        → Changes out.old out.new result (after_vehicles feed.now xs clock s) }
{
    let p = overlay_feeds::read_parts(home, body);
    let kept = overlay_bodies::count_left(sheet, home, p.vehicles, limit);
    if 1024 < kept {
        return None;
    }
    write_vehicles(
        out, old, end, feed, from, known, count, home, body, p, sheet, limit, kept,
    )
}

// A VEHICLE SHEET: the state that ends at `end`, with the sheet's vehicles over those of the feed, without the stale
// ones, its keys counted, and the version gone on by one. `limit` is the code of the clock less 900.
pub fn after_vehicles(
    out: &mut [u8],
    old: &[u8],
    end: usize,
    feed: &[u8],
    sheet: &[u8],
    limit: u64,
) -> Option<usize>
    ensures { (s : State) (xs : Vehicles) (clock : ℤ) → Here overlay old.now 0 end s → valid s ≡ true
        → zag limit ≡ clock -ℤ pos 900 → VehiclesAlone sheet.now xs
        → Changes out.old out.new result (after_vehicles feed.now xs clock s) }
{
    let spot = overlay_frame::spot(old, feed)?;
    match spot {
        FeedSpot::Known(from, body, count) => {
            put_vehicles(
                out, old, end, feed, from, true, count, old, body, sheet, limit,
            )
        }
        FeedSpot::New(from, count) => {
            put_vehicles(
                out, old, end, feed, from, false, count, &NO_FEED, 0, sheet, limit,
            )
        }
    }
}
