// Questions 3 to 7 put to a sheet and its feed id, before any work.
#![tactic(auto)]

mod table;

ghost use Rattle.std.specs.Prelude.{◌≡◌};
ghost use Rattle.formats_judge.specs.Judged.{judge_to};
ghost use Rattle.alerts.specs.Alert.{alert_sheet};
ghost use Rattle.overlay.specs.State.{vehicle_sheet};
ghost use Rattle.panel.specs.Questions.{feed_ok};
ghost use Rattle.panel_questions.specs.Promises.Numbers.{alert_number, timed, vehicle_number, ClockIs};

use table::{ALERT_DEPTH, ALERT_SHEET, ALERTS, VEHICLE_DEPTH, VEHICLE_SHEET, VEHICLES};

// An alert sheet's end, and the first of the questions 5 to 7 that it fails.
pub fn judge_alerts(sheet: &[u8]) -> Option<(usize, u32)>
    ensures { result ≡ judge_to alert_sheet sheet.now 0 }
{
    formats_judge::judge_value(&ALERTS, ALERT_DEPTH, ALERT_SHEET, sheet, 0)
}

// The same of a vehicle sheet.
pub fn judge_vehicles(sheet: &[u8]) -> Option<(usize, u32)>
    ensures { result ≡ judge_to vehicle_sheet sheet.now 0 }
{
    formats_judge::judge_value(&VEHICLES, VEHICLE_DEPTH, VEHICLE_SHEET, sheet, 0)
}

pub fn feed_ok(feed: &[u8]) -> bool
    ensures { result ≡ feed_ok feed.now }
{
    formats_judge::text(16, 2, feed) == 0
}

// AN ALERT SHEET: questions 3 to 7, as far as they are put to the sheet and the feed id alone.
pub fn alert_number(feed: &[u8], sheet: &[u8]) -> u32
    ensures { result ≡ alert_number feed.now sheet.now }
{
    if 1048576 < sheet.len() {
        return 3;
    }
    let Some((p, n)) = judge_alerts(sheet) else {
        return 4;
    };
    if p < sheet.len() {
        return 4;
    }
    if feed_ok(feed) {
        return n;
    }
    5
}

// A vehicle sheet's verdict n, where `clock` says whether its clock's time is one.
fn timed(n: u32, clock: bool) -> u32
    ensures { result ≡ timed n clock }
{
    if n == 5 {
        return 5;
    }
    if n == 6 {
        return 6;
    }
    if clock {
        return 0;
    }
    6
}

// A VEHICLE SHEET: questions 3 to 6, as far as they are put to the sheet, the feed id and the clock.
pub fn vehicle_number(feed: &[u8], sheet: &[u8], clock: bool) -> u32
    ensures { result ≡ vehicle_number feed.now sheet.now clock }
{
    if 1048576 < sheet.len() {
        return 3;
    }
    let Some((p, n)) = judge_vehicles(sheet) else {
        return 4;
    };
    if p < sheet.len() {
        return 4;
    }
    if overlay_ascends::keys_ascend(sheet, 1) {
        if feed_ok(feed) {
            return timed(n, clock);
        }
        return 5;
    }
    4
}

// A clock's time: whether it is one, and the code of the time 900 seconds before it.
#[derive(Drop)]
pub struct Clock {
    pub fine: bool,
    pub limit: u64,
}

pub fn read_clock(clock: i64) -> Clock
    ensures { ClockIs clock result.fine result.limit }
{
    if clock < 0 {
        return Clock {
            fine: false,
            limit: 0,
        };
    }
    if 4102444800 < clock {
        return Clock {
            fine: false,
            limit: 0,
        };
    }
    Clock {
        fine: true,
        limit: overlay_merge::limit_of(clock),
    }
}
