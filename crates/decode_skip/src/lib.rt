// Quick passes over the records of trips, as formats_skip has them over leaves.
#![tactic(auto)]

ghost use Rattle.std.specs.Prelude.{◌+◌, ◌≤◌, length};
ghost use Rattle.formats.specs.Format.{small, list, optional, ◌&◌};
ghost use Rattle.decode.specs.Trip.{delay, instant, number32, stop_update, trip, trip_entry};
ghost use Rattle.decode.specs.Sizes.{most_trips, most_updates};
ghost use Rattle.formats_skip.specs.Promises.Passes.{Passes, Leads};

// Room for the longest numbers behind a stop's id: four optional ones and a flag.
const NUMBERS: usize = 54;

// A stop update from there on, where there is that room.
fn past_numbers(s: &[u8], at: usize) -> usize
    requires { at + 54 ≤ length s.now }
    ensures { Passes (optional delay & optional instant & optional delay & optional instant & small 1)
        s.now at result }
{
    let a = formats_skip::past_optional_inside(s, at);
    let b = formats_skip::past_optional_inside(s, a);
    let c = formats_skip::past_optional_inside(s, b);
    let d = formats_skip::past_optional_inside(s, c);
    formats_skip::past_number_inside(s, d)
}

// A stop update.
pub fn past_update(s: &[u8], at: usize) -> usize
    ensures { Passes stop_update s.now at result }
{
    let a = formats_skip::past_text(s, at);
    if a <= s.len() && NUMBERS <= s.len() - a {
        return past_numbers(s, a);
    }
    let b = formats_skip::past_optional_number(s, a);
    let c = formats_skip::past_optional_number(s, b);
    let d = formats_skip::past_optional_number(s, c);
    let e = formats_skip::past_optional_number(s, d);
    formats_skip::past_number(s, e)
}

// A stop update with its sequence in front.
pub fn past_numbered(s: &[u8], at: usize) -> usize
    ensures { Passes (number32 & stop_update) s.now at result }
{
    let p = formats_skip::past_number(s, at);
    past_update(s, p)
}

// The updates of a trip.
pub fn past_updates(s: &[u8], at: usize) -> usize
    ensures { Passes (list most_updates (number32 & stop_update)) s.now at result }
{
    let n = formats_read::number(s, at);
    let mut p = n.next;
    for _ in 0..n.value {
        p = past_numbered(s, p);
    }
    p
}

// The place of a trip's start date, in front of which stand its delay and whether it is cancelled.
pub fn date_place(s: &[u8], at: usize) -> usize
    ensures { Leads 2 trip s.now at result }
{
    let a = formats_skip::past_optional_number(s, at);
    formats_skip::past_number(s, a)
}

// The place of a trip's updates.
pub fn updates_place(s: &[u8], at: usize) -> usize
    ensures { Leads 6 trip s.now at result }
{
    let a = formats_skip::past_optional_number(s, at);
    let b = formats_skip::past_number(s, a);
    let c = formats_skip::past_text(s, b);
    let d = formats_skip::past_text(s, c);
    let e = formats_skip::past_optional_number(s, d);
    formats_skip::past_text(s, e)
}

// The record of a trip.
pub fn past_trip(s: &[u8], at: usize) -> usize
    ensures { Passes trip s.now at result }
{
    let p = updates_place(s, at);
    past_updates(s, p)
}

// A record with its key in front.
pub fn past_entry(s: &[u8], at: usize) -> usize
    ensures { Passes trip_entry s.now at result }
{
    let p = formats_skip::past_text(s, at);
    past_trip(s, p)
}

// The trips of a feed.
pub fn past_trips(s: &[u8], at: usize) -> usize
    ensures { Passes (list most_trips trip_entry) s.now at result }
{
    let n = formats_read::number(s, at);
    let mut p = n.next;
    for _ in 0..n.value {
        p = past_entry(s, p);
    }
    p
}
