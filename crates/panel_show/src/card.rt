// A card as it stands on a panel: status, times, notices, and each leg.
use crate::large::Large;
use crate::parts::{Delay, Reader, Time, say_any_text, say_optional, say_text};
use std::io;

#[derive(Clone, Copy)]
enum Status {
    Scheduled,
    OnTime,
    Disrupted,
    Delayed,
    Cancelled,
    Unknown,
}

impl From<u64> for Status {
    fn from(number: u64) -> Self {
        match number {
            0 => Status::Scheduled,
            1 => Status::OnTime,
            2 => Status::Disrupted,
            3 => Status::Delayed,
            4 => Status::Cancelled,
            _ => Status::Unknown,
        }
    }
}

impl Status {
    fn name(self) -> &'static str {
        match self {
            Status::Scheduled => "SCHEDULED",
            Status::OnTime => "ON TIME",
            Status::Disrupted => "DISRUPTED",
            Status::Delayed => "DELAYED",
            Status::Cancelled => "CANCELLED",
            Status::Unknown => "?",
        }
    }
}

// A status as a headline, or in a line.
fn say_status(rt: &impl Print, status: Status, large: bool) -> io::Result<()> {
    let name = status.name();
    if large {
        rt.print(Large(name))
    } else {
        print!(rt; "  [ {name} ]")
    }
}

fn say_delay(rt: &impl Print, delay: Option<Delay>) -> io::Result<()> {
    match delay {
        Some(delay) => print!(rt; " ({delay})"),
        None => Ok(()),
    }
}

fn notice(rt: &impl Print, r: &mut Reader<'_>) -> io::Result<()> {
    say_text(rt, "  ! ", r.text())?;
    println!(rt)
}

// A middle stop with both scheduled times, and those that are expected. Of a train that is cancelled nothing is
// expected.
fn middle(rt: &impl Print, r: &mut Reader<'_>, cancelled: bool) -> io::Result<()> {
    say_text(rt, "      by ", r.text())?;
    print!(rt; " {}", r.time())?;
    print!(rt; " - {}", r.time())?;
    let arrival = r.optional(|r| r.time());
    let departure = r.optional(|r| r.time());
    if !cancelled {
        say_optional(rt, ", expected ", arrival)?;
        say_optional(rt, " to ", departure)?;
    }
    println!(rt)
}

// The line, its trip and its two stops.
fn route(rt: &impl Print, r: &mut Reader<'_>) -> io::Result<()> {
    say_text(rt, "  ", r.text())?;
    say_any_text(rt, " ", r.text())?;
    say_any_text(rt, ", route ", r.text())?;
    say_any_text(rt, ", trip ", r.text())?;
    say_optional(rt, ", direction ", r.optional(|r| r.number()))?;
    say_any_text(rt, "\n    from ", r.text())?;
    say_any_text(rt, " to ", r.text())
}

// When a train is expected to leave and to arrive, and how late.
#[derive(Drop)]
struct Expected {
    departure: Option<Time>,
    arrival: Option<Time>,
    departure_delay: Option<Delay>,
    arrival_delay: Option<Delay>,
}

impl Expected {
    fn read(r: &mut Reader<'_>) -> Self {
        let departure = r.optional(|r| r.time());
        let arrival = r.optional(|r| r.time());
        let departure_delay = r.optional(|r| r.delay());
        let arrival_delay = r.optional(|r| r.delay());
        Expected {
            departure,
            arrival,
            departure_delay,
            arrival_delay,
        }
    }

    fn say(&self, rt: &impl Print) -> io::Result<()> {
        if self.departure.is_some() || self.arrival.is_some() {
            rt.print("\n    expected ")?;
        }
        say_optional(rt, " ", self.departure)?;
        say_delay(rt, self.departure_delay)?;
        say_optional(rt, " - ", self.arrival)?;
        say_delay(rt, self.arrival_delay)
    }
}

// A transit leg: line and stops; scheduled and expected times with delays; cancelled; the vehicle; middle stops. A
// train that is cancelled is expected nowhere, whatever the times say.
fn transit(rt: &impl Print, r: &mut Reader<'_>) -> io::Result<()> {
    route(rt, r)?;
    let _not_shown = (r.number(), r.number());
    print!(rt; "\n    scheduled {}", r.time())?;
    print!(rt; " - {}", r.time())?;
    let expected = Expected::read(r);
    let cancelled = r.flag();
    if cancelled {
        rt.print("\n    CANCELLED")?;
    } else {
        expected.say(rt)?;
    }
    say_optional(rt, "\n    the vehicle is at ", r.optional(|r| r.degrees()))?;
    say_optional(rt, ", ", r.optional(|r| r.degrees()))?;
    say_optional(rt, ", seen ", r.optional(|r| r.time()))?;
    println!(rt)?;
    for _ in 0..r.number() {
        middle(rt, r, cancelled)?;
    }
    let _not_shown = r.text();
    Ok(())
}

fn leg(rt: &impl Print, r: &mut Reader<'_>) -> io::Result<()> {
    if r.flag() {
        return transit(rt, r);
    }
    println!(rt; "  walk")?;
    let _not_shown = r.text();
    Ok(())
}

// The card that stands at the start of s, with its status in large or not.
pub fn card(rt: &impl Print, s: &[u8], large: bool) -> io::Result<()> {
    let mut r = Reader::new(s);
    let departure = r.time();
    let arrival = r.time();
    let duration = r.number(); // a signed number as it is written: the seconds twice
    say_status(rt, Status::from(r.number()), large)?;
    println!(rt; "  {departure} - {arrival}, {} min", duration / 120)?;
    for _ in 0..r.number() {
        notice(rt, &mut r)?;
    }
    for _ in 0..r.number() {
        leg(rt, &mut r)?;
    }
    Ok(())
}
