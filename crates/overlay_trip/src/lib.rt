// The record of a trip by checked reading: its updates, its parts, and the record whole.
#![tactic(auto)]

ghost use Rattle.std.specs.Prelude.{◌≤◌, length};
ghost use Rattle.formats.specs.Format.{small, list, optional, ◌&◌};
ghost use Rattle.decode.specs.Trip.{id, delay, instant, number32, stop_update, time, trip};
ghost use Rattle.formats_check.specs.Promises.Checked.{Checked, Fine, Tested};
ghost use Rattle.formats_check.specs.Laws.Rising.{Rises, ascend};
ghost use Rattle.overlay_trip.specs.Laws.Trip.{time_good, route_good, trip_good};

use formats_check::{at_most, number_at, number_five, number_long, printable};

// Any 32 bits: a delay, by how a signed number is written, or a number.
fn word(old: &[u8], at: usize) -> Option<usize>
    ensures fine { Fine delay old.now at result }
    ensures fine_2 { Fine number32 old.now at result }
{
    let (n, p) = number_at(old, at)?;
    if 4294967295 < n {
        return None;
    }
    Some(p)
}

pub fn instant(old: &[u8], at: usize) -> Option<usize>
    ensures { Fine instant old.now at result }
{
    let (n, p) = number_five(old, at)?;
    if n % 2 != 0 {
        return None;
    }
    if 8204889600 < n {
        return None;
    }
    Some(p)
}

pub fn optional_word(old: &[u8], at: usize) -> Option<usize>
    ensures fine { Fine (optional delay) old.now at result }
    ensures fine_2 { Fine (optional number32) old.now at result }
{
    match old.get(at)? {
        0 => Some(at + 1),
        1 => word(old, at + 1),
        _ => None,
    }
}

fn optional_instant(old: &[u8], at: usize) -> Option<usize>
    ensures { Fine (optional instant) old.now at result }
{
    match old.get(at)? {
        0 => Some(at + 1),
        1 => instant(old, at + 1),
        _ => None,
    }
}

// Delay and time of one event, and what follows them in a stop's update.
fn departure(old: &[u8], at: usize) -> Option<usize>
    ensures { Fine (optional delay & optional instant & small 1) old.now at result }
{
    let p = optional_word(old, at)?;
    let q = optional_instant(old, p)?;
    at_most(1, old, q)
}

fn arrival(old: &[u8], at: usize) -> Option<usize>
    ensures { Fine (optional delay & optional instant & optional delay & optional instant & small 1)
        old.now at result }
{
    let p = optional_word(old, at)?;
    let q = optional_instant(old, p)?;
    departure(old, q)
}

fn stop_update(old: &[u8], at: usize) -> Option<usize>
    ensures { Fine stop_update old.now at result }
{
    let p = printable(64, old, at)?;
    arrival(old, p)
}

// n updates one after another, ascending by sequence: the walk keeps the least that the next may have.
fn updates_from(n: u64, old: &[u8], at: usize) -> Option<usize>
    requires { at ≤ length old.now }
    ensures { Rises 4294967295 stop_update 0 n old.now at result }
{
    let mut p = at;
    let mut low: u64 = 0;
    for _ in 0..n {
        let (k, q) = number_at(old, p)?;
        if k < low {
            return None;
        }
        if 4294967295 < k {
            return None;
        }
        p = stop_update(old, q)?;
        low = k + 1;
    }
    Some(p)
}

// The updates of a trip: at most 128, each good, ascending by sequence.
fn updates(old: &[u8], at: usize) -> Option<usize>
    ensures { Checked (list 128 (number32 & stop_update)) (ascend 128 4294967295 stop_update)
        old.now at result }
{
    let (n, p) = number_long(old, at)?;
    if 128 < n {
        return None;
    }
    updates_from(n, old, p)
}

// The record of a trip from its start time on, from its route on, and whole.
fn from_time(old: &[u8], at: usize) -> Option<usize>
    ensures { Tested (time & list 128 (number32 & stop_update)) time_good old.now at result }
{
    let p = printable(16, old, at)?;
    updates(old, p)
}

fn from_route(old: &[u8], at: usize) -> Option<usize>
    ensures { Tested (id & optional number32 & time & list 128 (number32 & stop_update)) route_good
        old.now at result }
{
    let p = printable(64, old, at)?;
    let q = optional_word(old, p)?;
    from_time(old, q)
}

pub fn trip(old: &[u8], at: usize) -> Option<usize>
    ensures { Tested trip trip_good old.now at result }
{
    let p = optional_word(old, at)?;
    let q = at_most(1, old, p)?;
    let u = printable(16, old, q)?;
    from_route(old, u)
}
