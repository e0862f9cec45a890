// The records of an overlay: the supplier's raw records behind a train.
use crate::parts::{Reader, say_any_text, say_flag, say_optional, say_optional_text, say_text};
use std::io;

// A stop's update: sequence, stop, both events, skipped.
fn update(rt: &impl Print, r: &mut Reader<'_>) -> io::Result<()> {
    print!(rt; "      {}", r.number())?;
    say_any_text(rt, " stop ", r.text())?;
    say_optional(rt, ", arrival late ", r.optional(|r| r.signed()))?;
    say_optional(rt, ", arrival at ", r.optional(|r| r.signed()))?;
    say_optional(rt, ", departure late ", r.optional(|r| r.signed()))?;
    say_optional(rt, ", departure at ", r.optional(|r| r.signed()))?;
    say_flag(rt, ", skipped", r.flag())?;
    println!(rt)
}

// A trip: its record's key, delay, cancelled, date, route, direction, start time; then its updates.
fn trip(rt: &impl Print, r: &mut Reader<'_>) -> io::Result<()> {
    say_text(rt, "    trip ", r.text())?;
    say_optional(rt, ", late ", r.optional(|r| r.signed()))?;
    say_flag(rt, ", CANCELLED", r.flag())?;
    say_any_text(rt, ", date ", r.text())?;
    say_any_text(rt, ", route ", r.text())?;
    say_optional(rt, ", direction ", r.optional(|r| r.number()))?;
    say_any_text(rt, ", start ", r.text())?;
    println!(rt)?;
    for _ in 0..r.number() {
        update(rt, r)?;
    }
    Ok(())
}

// A vehicle: its key, its trip, its place, when it was updated.
fn vehicle(rt: &impl Print, r: &mut Reader<'_>) -> io::Result<()> {
    say_text(rt, "    vehicle ", r.text())?;
    say_optional_text(rt, ", trip ", r.optional_text())?;
    print!(rt; ", at {}", r.degrees())?;
    print!(rt; ", {}", r.degrees())?;
    println!(rt; ", updated {}", r.signed())
}

// The ids of a list, behind its name.
fn ids(rt: &impl Print, name: &str, r: &mut Reader<'_>) -> io::Result<()> {
    rt.print(name)?;
    for _ in 0..r.number() {
        say_text(rt, " ", r.text())?;
    }
    Ok(())
}

// An alert: its texts, and the trips, routes and stops that it informs of.
fn alert(rt: &impl Print, r: &mut Reader<'_>) -> io::Result<()> {
    rt.print("    alert")?;
    say_optional_text(rt, ", header ", r.optional_text())?;
    say_optional_text(rt, ", description ", r.optional_text())?;
    say_optional_text(rt, ", cause ", r.optional_text())?;
    ids(rt, "; trips", r)?;
    ids(rt, "; routes", r)?;
    ids(rt, "; stops", r)?;
    println!(rt)
}

// A feed: its id, header timestamp and `trip_update_count`; then its trips, vehicles and alerts.
fn feed(rt: &impl Print, r: &mut Reader<'_>) -> io::Result<()> {
    say_text(rt, "  feed ", r.text())?;
    say_optional(rt, ", timestamp ", r.optional(|r| r.signed()))?;
    println!(rt; ", trip_update_count {}", r.number())?;
    for _ in 0..r.number() {
        trip(rt, r)?;
    }
    for _ in 0..r.number() {
        vehicle(rt, r)?;
    }
    for _ in 0..r.number() {
        alert(rt, r)?;
    }
    Ok(())
}

// The state that stands at the start of s.
pub fn state(rt: &impl Print, s: &[u8]) -> io::Result<()> {
    let mut r = Reader::new(s);
    println!(rt; "version {}", r.number())?;
    for _ in 0..r.number() {
        feed(rt, &mut r)?;
    }
    Ok(())
}
