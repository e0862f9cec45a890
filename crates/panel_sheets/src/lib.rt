// Alert sheets and vehicle sheets, with the overlay's length as a parameter: a call of each, its questions in their
// order, then zeros behind what was written.
#![tactic(auto)]

ghost use Rattle.std.specs.Prelude.{[], ℤ, length};
ghost use Rattle.panel.specs.Calls as calls;
ghost use Rattle.panel.specs.Given.{Given};
ghost use Rattle.panel.specs.Lengths.{sized};
ghost use Rattle.panel_output.specs.Promises.Ends.{Ends};
ghost use Rattle.panel_questions.specs.Promises.Numbers.{ClockIs};

use panel_output::Ending;
use panel_questions::Clock;

// An alert sheet's questions in their order, and what it writes.
fn alert_ending(n: usize, old: &[u8], feed: &[u8], sheet: &[u8], new: &mut [u8]) -> Ending
    ensures { Ends (sized n) old.now
        (calls.alert_sheet feed.now sheet.now (length new.old) []) new.new
        result }
{
    let given = [old.len(), new.len()];
    let due = [n, n];
    if !panel_output::same_lengths(&given, &due) {
        return Ending::Refused(1);
    }
    let Some(end) = overlay_open::open(old) else {
        return Ending::Refused(2);
    };
    let number = panel_questions::alert_number(feed, sheet);
    if number != 0 {
        return Ending::Refused(number);
    }
    let w = overlay_sheets::after_alerts(new, old, end, feed, sheet);
    panel_output::of_put(w)
}

// AN ALERT SHEET onto an overlay of n bytes.
pub fn alert_sheet(n: usize, old: &[u8], feed: &[u8], sheet: &[u8], new: &mut [u8]) -> u32
    ensures { Given (sized n) old.now
        (calls.alert_sheet feed.now sheet.now (length new.old) []) result new.new
        [] }
{
    let e = alert_ending(n, old, feed, sheet, new);
    panel_output::finish(new, e)
}

// A vehicle sheet's questions in their order, and what it writes.
fn vehicle_ending(
    n: usize,
    old: &[u8],
    feed: &[u8],
    sheet: &[u8],
    clock: Clock,
    new: &mut [u8],
) -> Ending
    ensures { (t : ℤ) → ClockIs t clock.fine clock.limit
        → Ends (sized n) old.now
        (calls.vehicle_sheet feed.now sheet.now t (length new.old) [])
        new.new result }
{
    let given = [old.len(), new.len()];
    let due = [n, n];
    if !panel_output::same_lengths(&given, &due) {
        return Ending::Refused(1);
    }
    let Some(end) = overlay_open::open(old) else {
        return Ending::Refused(2);
    };
    let number = panel_questions::vehicle_number(feed, sheet, clock.fine);
    if number != 0 {
        return Ending::Refused(number);
    }
    let w = overlay_sheets::after_vehicles(new, old, end, feed, sheet, clock.limit);
    panel_output::of_put(w)
}

// A VEHICLE SHEET onto an overlay of n bytes.
pub fn vehicle_sheet(
    n: usize,
    old: &[u8],
    feed: &[u8],
    sheet: &[u8],
    clock: i64,
    new: &mut [u8],
) -> u32
    ensures { Given (sized n) old.now
        (calls.vehicle_sheet feed.now sheet.now clock (length new.old) []) result
        new.new [] }
{
    let c = panel_questions::read_clock(clock);
    let e = vehicle_ending(n, old, feed, sheet, c, new);
    panel_output::finish(new, e)
}
