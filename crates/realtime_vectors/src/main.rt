// Messages in hexadecimal, a line each, and what the readers answer of them; a line that begins with '#' is handed
// on. The lines of `stdin` are the vectors of the wire format and of merging (Protocol Buffers, "Encoding"; document
// 01, "Wire reader"), and cases of our own at the edges of the questions 4, 5 and 6. Those of `stdout` were written
// by a model of the two papers that shares nothing with this code, and read by eye.
//
// A line of the answer: the number of the question that says no, or 0; then whether the message is DIFFERENTIAL, its
// timestamp, and each entity in brackets:
// "deleted", or id, start time, start date and route of its trip, whether it is cancelled, its direction and its
// delay, and each stop time update in brackets:
// its sequence, its stop, arrival and departure as delay and time, and whether it is skipped. '-' is absent.
// What the readers answer is proved in `realtime` and `realtime_views`; the functions here write it out and promise
// nothing of what was written, so they have no `ensures`.
#![tactic(auto)]

ghost use Rattle.std.specs.Prelude.{◌+◌, ◌≤◌, length};
ghost use Rattle.program_io.specs.Promises.Counts.{IsPrefixLen};

use realtime::Verdict;
use realtime_read::{FEED_MESSAGE, ID_LIMIT};
use realtime_views::{Event, Item, StopUpdate, TextPart};
use std::fmt::Display;
use std::io;

// How long a message is at most; what a line has behind that is left out.
const MESSAGE: usize = 4096;

fn write_flag(rt: &impl Print, flag: bool) -> io::Result<()> {
    rt.print(if flag { " yes" } else { " no" })
}

// A number, or '-' where there is none.
fn write_given<T: Display + Drop>(rt: &impl Print, value: Option<T>) -> io::Result<()> {
    match value {
        Some(x) => print!(rt; " {x}"),
        None => rt.print(" -"),
    }
}

fn write_text(rt: &impl Print, s: &[u8], text: TextPart) -> io::Result<()>
    requires { text.start + text.len ≤ length s.now }
{
    rt.print(" ")?;
    match slices::part(s, text.start, text.len) {
        [] => rt.print("-"),
        bytes => rt.write_all(bytes),
    }
}

fn write_event(rt: &impl Print, event: Event) -> io::Result<()> {
    write_given(rt, event.delay)?;
    write_given(rt, event.time)
}

fn write_stop(rt: &impl Print, s: &[u8], update: StopUpdate) -> io::Result<()>
    requires { update.stop.start + update.stop.len ≤ length s.now }
{
    print!(rt; " ({}", update.sequence)?;
    write_text(rt, s, update.stop)?;
    write_event(rt, update.arrival)?;
    write_event(rt, update.departure)?;
    write_flag(rt, update.skipped)?;
    rt.print(")")
}

fn write_trip(rt: &impl Print, s: &[u8], start: usize, len: usize) -> io::Result<()>
    requires { start + len ≤ length s.now }
{
    let trip = realtime_views::trip_of(s, start, len);
    rt.print("trip")?;
    write_text(rt, s, trip.id)?;
    write_text(rt, s, trip.time)?;
    write_text(rt, s, trip.date)?;
    write_text(rt, s, trip.route)?;
    write_flag(rt, trip.cancelled)?;
    write_given(rt, trip.direction)?;
    write_given(rt, trip.delay)
}

// The stop time updates of the entity that starts at `start` and ends with `s`.
fn write_updates(rt: &impl Print, s: &[u8], start: usize) -> io::Result<()>
    requires { start ≤ length s.now }
{
    let mut rest = realtime_views::merged_items(start);
    while let Item::At { start, len, walk } = realtime_views::next_update(s, rest) {
        write_stop(rt, s, realtime_views::stop_of(s, start, len))?;
        rest = walk;
    }
    Ok(())
}

fn write_entity(rt: &impl Print, s: &[u8], start: usize, len: usize) -> io::Result<()>
    requires { start + len ≤ length s.now }
{
    rt.print(" [")?;
    if realtime_views::is_deleted(s, start, len) {
        rt.print("deleted")?;
    } else {
        write_trip(rt, s, start, len)?;
        write_updates(rt, &s[..start + len], start)?;
    }
    rt.print("]")
}

fn write_entities(rt: &impl Print, s: &[u8]) -> io::Result<()> {
    let mut rest = realtime_views::entities(s);
    while let Item::At { start, len, walk } = realtime_views::next_entity(s, rest) {
        write_entity(rt, s, start, len)?;
        rest = walk;
    }
    Ok(())
}

fn write_message(rt: &impl Print, s: &[u8]) -> io::Result<()> {
    match realtime_read::judge(s, FEED_MESSAGE, ID_LIMIT) {
        Verdict::Broken => println!(rt; "4"),
        Verdict::Text => println!(rt; "5"),
        Verdict::Time => println!(rt; "6"),
        Verdict::Fine => {
            let header = realtime_views::header_of(s);
            rt.print("0")?;
            write_flag(rt, header.differential)?;
            write_given(rt, header.timestamp)?;
            write_entities(rt, s)?;
            println!(rt)
        }
    }
}

// The bytes of a line go into `bytes`, two digits each, whatever stands between the digits: how many they are.
fn bytes_of(line: &[u8], bytes: &mut [u8]) -> usize
    ensures { IsPrefixLen result bytes.new }
{
    let mut digits = line.iter().filter_map(|c| vector_lines::digit(*c));
    for n in 0..bytes.len() {
        let Some(high) = digits.next() else {
            return n;
        };
        let Some(low) = digits.next() else {
            return n;
        };
        bytes[n] = high << 4 | low;
    }
    bytes.len()
}

fn answer(rt: &impl Print, input: &[u8]) -> io::Result<()> {
    for line in input.split_inclusive(|b| *b == b'\n') {
        if line.starts_with(b"#") {
            rt.write_all(line)?;
        } else {
            // Lent and no vector: a program that only reads and prints takes nothing of the heap.
            let mut bytes = [0; MESSAGE];
            let count = bytes_of(line, &mut bytes);
            write_message(rt, &bytes[..count])?;
        }
    }
    Ok(())
}

fn main(rt: HostRuntime) -> io::Result<()> {
    let mut input = [0; program_io::INPUT];
    let count = program_io::read_full(&mut rt.reader(), &mut input)?;
    answer(&rt, &input[..count])
}
