// For a C host: whether a buffer is an overlay, and the calls over overlays of any length up to the published one, so
// that tests need not run at that length.
#![tactic(auto)]

ghost use Rattle.std.specs.Prelude.{◌≡◌, [], ◌∷◌, length};
ghost use Rattle.overlay.specs.Image.{state_of};
ghost use Rattle.panel.specs.Calls as calls;
ghost use Rattle.panel.specs.Lengths.{sized};
ghost use Rattle.panel.specs.Given.{Given};
ghost use Rattle.panel_probes.specs.States.{end_of, length_of};

use panel_report::OVERLAY;

// Up to the published length.
fn length_of(n: usize) -> usize
    ensures { result ≡ length_of n }
{
    if n <= OVERLAY {
        return n;
    }
    OVERLAY
}

// Where the state of a buffer ends; 0 where it is no overlay.
#[unsafe(no_mangle)]
pub extern "C" fn states_open(s: &[u8]) -> usize
    ensures { result ≡ end_of (state_of s.now) }
{
    match overlay_open::open(s) {
        None => 0,
        Some(p) => p,
    }
}

// A fresh overlay as long as its buffer.
#[unsafe(no_mangle)]
pub extern "C" fn states_fresh(new: &mut [u8]) -> u32
    ensures { Given (sized (length_of (length new.old))) [] (calls.fresh (length new.old)) result
        new.new [] }
{
    panel_report::fresh(length_of(new.len()), new)
}

// The calls over an overlay as long as the old one.
#[unsafe(no_mangle)]
pub extern "C" fn states_message(
    old: &[u8],
    feed: &[u8],
    s: &[u8],
    new: &mut [u8],
    keys: &mut [u8],
    marks: &mut [u32],
    order: &mut [u32],
) -> u32
    ensures { Given (sized (length_of (length old.now))) old.now
        (calls.message feed.now s.now (length new.old)
        (length keys.old ∷ length marks.old ∷ length order.old ∷ []))
        result new.new
        (keys.new ∷ marks.new ∷ order.new ∷ []) }
{
    panel_message::message(length_of(old.len()), old, feed, s, new, keys, marks, order)
}

#[unsafe(no_mangle)]
pub extern "C" fn states_alert_sheet(old: &[u8], feed: &[u8], sheet: &[u8], new: &mut [u8]) -> u32
    ensures { Given (sized (length_of (length old.now))) old.now
        (calls.alert_sheet feed.now sheet.now (length new.old) []) result new.new
        [] }
{
    panel_sheets::alert_sheet(length_of(old.len()), old, feed, sheet, new)
}

#[unsafe(no_mangle)]
pub extern "C" fn states_vehicle_sheet(
    old: &[u8],
    feed: &[u8],
    sheet: &[u8],
    clock: i64,
    new: &mut [u8],
) -> u32
    ensures { Given (sized (length_of (length old.now))) old.now
        (calls.vehicle_sheet feed.now sheet.now clock (length new.old) []) result
        new.new [] }
{
    panel_sheets::vehicle_sheet(length_of(old.len()), old, feed, sheet, clock, new)
}

#[unsafe(no_mangle)]
pub extern "C" fn states_report(old: &[u8], feed: &[u8], out: &mut [u8]) -> u32
    ensures { Given (sized (length_of (length old.now))) old.now
        (calls.report feed.now (length out.old)) result out.new [] }
{
    panel_report::report(length_of(old.len()), old, feed, out)
}

#[unsafe(no_mangle)]
pub extern "C" fn states_card(
    old: &[u8],
    card: &[u8],
    out: &mut [u8],
    candidates: &mut [u16],
    met: &mut [u16],
    noted: &mut [u32],
    known: &mut [u32],
) -> u32
    ensures { Given (sized (length_of (length old.now))) old.now
        (calls.card card.now (length out.old)
        (length candidates.old ∷ length met.old ∷ length noted.old
        ∷ length known.old ∷ []))
        result out.new
        (candidates.new ∷ met.new ∷ noted.new ∷ known.new ∷ []) }
{
    panel_card::card(
        length_of(old.len()),
        old,
        card,
        out,
        candidates,
        met,
        noted,
        known,
    )
}
