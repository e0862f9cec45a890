// The call that makes an alert sheet of a feed's message: its questions in their order and the sheet, then zeros.
#![tactic(auto)]

ghost use Rattle.std.specs.Prelude.{◌≡◌, [], ◌-◌, length};
ghost use Rattle.panel.specs.Calls as calls;
ghost use Rattle.panel.specs.Given.{Given};
ghost use Rattle.panel.specs.Lengths.{lengths};
ghost use Rattle.panel_output.specs.Promises.Ends.{Ends};
ghost use Rattle.panel_alerts.specs.Promises.Alerts.{alerts_number, number_by};

use alerts_views::MOST_ALERTS;
use decode::sizes::MOST_MESSAGE;
use panel_output::Ending;
use realtime::Verdict;
use realtime_read::ALERT_MESSAGE;

// What a sheet takes.
pub const SHEET: usize = 1048576;

// The longest id with ':' in front.
const AFTER_FEED: usize = 63;

// The longest id: 64 bytes with the feed's id and ':' in front.
fn id_limit(feed: &[u8]) -> usize
    ensures { result ≡ 63 - length feed.now }
{
    if feed.len() < AFTER_FEED {
        return AFTER_FEED - feed.len();
    }
    0
}

// The first of the questions 4 and 5 that has the answer no, else 0. No number of such a message has a limit.
fn number_by(v: Verdict, named: bool) -> u32
    ensures { result ≡ number_by v named }
{
    match v {
        Verdict::Broken => 4,
        Verdict::Text => 5,
        Verdict::Time => {
            if named {
                return 0;
            }
            5
        }
        Verdict::Fine => {
            if named {
                return 0;
            }
            5
        }
    }
}

// The first of the questions 3 to 5.
fn alerts_number(feed: &[u8], message: &[u8]) -> u32
    ensures { result ≡ alerts_number feed.now message.now }
{
    if message.len() > MOST_MESSAGE {
        return 3;
    }
    number_by(
        realtime_read::judge(message, ALERT_MESSAGE, id_limit(feed)),
        panel_questions::feed_ok(feed),
    )
}

// The questions in their order, and the sheet in `out`.
fn sheet_ending(feed: &[u8], message: &[u8], out: &mut [u8]) -> Ending
    ensures { Ends lengths [] (calls.feed_alerts feed.now message.now
        (length out.old)) out.new result }
{
    if out.len() != SHEET {
        return Ending::Refused(1);
    }
    let number = alerts_number(feed, message);
    if number != 0 {
        return Ending::Refused(number);
    }
    let kept = alerts_views::kept(message);
    if kept > MOST_ALERTS {
        return Ending::Refused(7);
    }
    let w = alerts_sheet::write_sheet(out, feed, message, kept);
    panel_output::ended(w, 8)
}

// A MESSAGE'S ALERTS as a sheet.
pub fn feed_alerts(feed: &[u8], message: &[u8], out: &mut [u8]) -> u32
    ensures { Given lengths [] (calls.feed_alerts feed.now message.now
        (length out.old)) result out.new [] }
{
    let e = sheet_ending(feed, message, out);
    panel_output::finish(out, e)
}
