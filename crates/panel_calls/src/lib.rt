// THE PANEL'S CALLS, for hosts in C and Rust, at the published lengths. Each answers document 01's number: 0 where it
// is accepted, else that of the first question whose answer is no.
#![tactic(auto)]

ghost use Rattle.std.specs.Prelude.{◌≡◌, [], ◌∷◌, length, get_or};
ghost use Rattle.panel.specs.Calls as calls;
ghost use Rattle.panel.specs.Lengths.{lengths, published_lengths};
ghost use Rattle.panel.specs.Given.{Given};
ghost use Rattle.panel.specs.End.{end};

use panel_alerts::SHEET;
use panel_report::OVERLAY;

// The lengths of all buffers, in elements.
const LENGTHS: [usize; 11] = [
    OVERLAY, 65536, // a card
    25, // a report
    280713, // keys, marks, order of a message
    6147, 2049, 256, // candidates, met, noted, known of a card
    256, 8208, 4096, SHEET,
];

// The published length k, in elements; 0 where there is none.
#[unsafe(no_mangle)]
pub extern "C" fn mipsuqal_length(k: u32) -> usize
    ensures { result ≡ get_or published_lengths k 0 }
{
    let i = k as usize;
    if i < 11 {
        return LENGTHS[i];
    }
    0
}

// A FRESH OVERLAY: no feeds, version 0.
#[unsafe(no_mangle)]
pub extern "C" fn mipsuqal_fresh(new: &mut [u8]) -> u32
    ensures { Given lengths [] (calls.fresh (length new.old)) result new.new [] }
{
    panel_report::fresh(OVERLAY, new)
}

// A MESSAGE of a feed: from the old overlay to the new one.
#[unsafe(no_mangle)]
pub extern "C" fn mipsuqal_message(
    old: &[u8],
    feed: &[u8],
    message: &[u8],
    new: &mut [u8],
    keys: &mut [u8],
    marks: &mut [u32],
    order: &mut [u32],
) -> u32
    ensures { Given lengths old.now
        (calls.message feed.now message.now (length new.old)
        (length keys.old ∷ length marks.old ∷ length order.old ∷ []))
        result new.new
        (keys.new ∷ marks.new ∷ order.new ∷ []) }
{
    panel_message::message(OVERLAY, old, feed, message, new, keys, marks, order)
}

// AN ALERT SHEET of a feed.
#[unsafe(no_mangle)]
pub extern "C" fn mipsuqal_alert_sheet(old: &[u8], feed: &[u8], sheet: &[u8], new: &mut [u8]) -> u32
    ensures { Given lengths old.now
        (calls.alert_sheet feed.now sheet.now (length new.old) []) result new.new
        [] }
{
    panel_sheets::alert_sheet(OVERLAY, old, feed, sheet, new)
}

// A VEHICLE SHEET of a feed, at the clock's time.
#[unsafe(no_mangle)]
pub extern "C" fn mipsuqal_vehicle_sheet(
    old: &[u8],
    feed: &[u8],
    sheet: &[u8],
    clock: i64,
    new: &mut [u8],
) -> u32
    ensures { Given lengths old.now
        (calls.vehicle_sheet feed.now sheet.now clock (length new.old) []) result
        new.new [] }
{
    panel_sheets::vehicle_sheet(OVERLAY, old, feed, sheet, clock, new)
}

// A CARD: the arriving one, finished.
#[unsafe(no_mangle)]
pub extern "C" fn mipsuqal_card(
    old: &[u8],
    card: &[u8],
    out: &mut [u8],
    candidates: &mut [u16],
    met: &mut [u16],
    noted: &mut [u32],
    known: &mut [u32],
) -> u32
    ensures { Given lengths old.now
        (calls.card card.now (length out.old)
        (length candidates.old ∷ length met.old ∷ length noted.old
        ∷ length known.old ∷ []))
        result out.new
        (candidates.new ∷ met.new ∷ noted.new ∷ known.new ∷ []) }
{
    panel_card::card(OVERLAY, old, card, out, candidates, met, noted, known)
}

// A REPORT on a feed: version, count and header timestamp.
#[unsafe(no_mangle)]
pub extern "C" fn mipsuqal_report(old: &[u8], feed: &[u8], out: &mut [u8]) -> u32
    ensures { Given lengths old.now (calls.report feed.now (length out.old)) result
        out.new [] }
{
    panel_report::report(OVERLAY, old, feed, out)
}

// A MESSAGE'S ALERTS as an alert sheet, over no overlay.
#[unsafe(no_mangle)]
pub extern "C" fn mipsuqal_feed_alerts(feed: &[u8], message: &[u8], out: &mut [u8]) -> u32
    ensures { Given lengths [] (calls.feed_alerts feed.now message.now
        (length out.old)) result out.new [] }
{
    panel_alerts::feed_alerts(feed, message, out)
}

// THE END of a card, an alert sheet or a vehicle sheet (kinds 0, 1, 2) that stands in front: how many bytes it has,
// whatever follows; 0 where there is none.
#[unsafe(no_mangle)]
pub extern "C" fn mipsuqal_end(kind: u32, bytes: &[u8]) -> usize
    ensures { result ≡ end kind bytes.now }
{
    panel_end::end(kind, bytes)
}
