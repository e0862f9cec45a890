// The fresh overlay, and the report on a feed: a call of each.
#![tactic(auto)]

ghost use Rattle.std.specs.Prelude.{◌≡◌, [], length};
ghost use Rattle.formats.specs.Format.{write};
ghost use Rattle.formats.specs.Number.{zag};
ghost use Rattle.formats_write.specs.Promises.Adds.{Adds};
ghost use Rattle.formats_write.specs.Promises.Given.{given_signed};
ghost use Rattle.overlay.specs.Report.{bits64, stamped};
ghost use Rattle.overlay.specs.State.{overlay, no_state};
ghost use Rattle.panel.specs.Calls as calls;
ghost use Rattle.panel.specs.Given.{Given};
ghost use Rattle.panel.specs.Lengths.{sized};
ghost use Rattle.panel_output.specs.Promises.Ends.{Ends};
ghost use Rattle.panel_report.specs.Promises.Report.{Reads, Written};

use overlay_feeds::FeedPlace;
use panel_output::Ending;

// How long an overlay is, by the published lengths.
pub const OVERLAY: usize = 111398044;

// What the state without feeds takes.
const FRESH: usize = 3;

// What a report takes.
const REPORT: usize = 25;

// The state without feeds.
fn write_fresh(new: &mut [u8], w: Option<usize>) -> Option<usize>
    ensures { Adds new.old w new.new result (write overlay no_state) }
{
    let w1 = formats_write::byte(new, w, 1);
    let w2 = formats_write::number(new, w1, 0);
    formats_write::number(new, w2, 0)
}

// Question 1: the buffer has the length that is due, and there is room in it.
fn fresh_ending(n: usize, new: &mut [u8]) -> Ending
    ensures { Ends (sized n) [] (calls.fresh (length new.old)) new.new result }
{
    if (new.len() == n) & (FRESH <= new.len()) {
        let w = write_fresh(new, Some(0));
        return panel_output::of_put(w);
    }
    Ending::Refused(1)
}

// A FRESH OVERLAY of n bytes.
pub fn fresh(n: usize, new: &mut [u8]) -> u32
    ensures { Given (sized n) [] (calls.fresh (length new.old)) result new.new [] }
{
    let e = fresh_ending(n, new);
    panel_output::finish(new, e)
}

// The 64 bits of a signed number, by how it is written.
fn bits(code: u64) -> u64
    ensures { result ≡ bits64 (zag code) }
{
    if code % 2 == 0 {
        return code / 2;
    }
    18446744073709551615 - code / 2
}

// A timestamp: whether it is there, and its bits.
fn stamp(out: &mut [u8], w: Option<usize>, t: Option<i64>) -> Option<usize>
    ensures { Adds out.old w out.new result (stamped (given_signed t)) }
{
    match t {
        None => {
            let w1 = formats_write::byte(out, w, 0);
            formats_write::float(out, w1, 0)
        }
        Some(z) => {
            let w1 = formats_write::byte(out, w, 1);
            formats_write::float(out, w1, bits(integers::to_zigzag(z)))
        }
    }
}

// What a report says of a feed.
#[derive(Drop)]
pub struct Said {
    pub count: u64,
    pub timestamp: Option<i64>,
}

// An unknown feed has a count of 0 and no timestamp.
fn read(old: &[u8], feed: &[u8]) -> Said
    ensures { Reads old.now feed.now result.count result.timestamp }
{
    match overlay_feeds::find_feed(old, feed) {
        FeedPlace::At(_, _, body) => {
            let timestamp = formats_read::optional_signed(old, body);
            let counted = formats_skip::past_optional_number(old, body);
            let n = formats_read::number(old, counted);
            Said {
                count: n.value,
                timestamp,
            }
        }
        FeedPlace::Missing(_, _) => Said {
            count: 0,
            timestamp: None,
        },
    }
}

// The report on a feed of an overlay.
fn write_report(out: &mut [u8], old: &[u8], feed: &[u8]) -> Option<usize>
    ensures { Written out.old out.new result old.now feed.now }
{
    let h = overlay_feeds::read_head(old);
    let said = read(old, feed);
    let timestamp = said.timestamp;
    let w1 = formats_write::float(out, Some(0), h.version);
    let w2 = formats_write::float(out, w1, said.count);
    stamp(out, w2, timestamp)
}

// Questions 1, 2 and 5, then the version, and the feed's count and timestamp.
fn report_ending(n: usize, old: &[u8], feed: &[u8], out: &mut [u8]) -> Ending
    ensures { Ends (sized n) old.now (calls.report feed.now (length out.old))
        out.new result }
{
    let given = [old.len(), out.len()];
    let due = [n, REPORT];
    if !panel_output::same_lengths(&given, &due) {
        return Ending::Refused(1);
    }
    match overlay_open::open(old) {
        None => Ending::Refused(2),
        Some(_) => {
            if panel_questions::feed_ok(feed) {
                let w = write_report(out, old, feed);
                return panel_output::of_put(w);
            }
            Ending::Refused(5)
        }
    }
}

// A REPORT on a feed of an overlay of n bytes.
pub fn report(n: usize, old: &[u8], feed: &[u8], out: &mut [u8]) -> u32
    ensures { Given (sized n) old.now (calls.report feed.now (length out.old)) result
        out.new [] }
{
    let e = report_ending(n, old, feed, out);
    panel_output::finish(out, e)
}
