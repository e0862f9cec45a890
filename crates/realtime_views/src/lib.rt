// The merged messages of a feed, read after the validator: a broken message is answered with anything.
#![tactic(auto)]

ghost use Rattle.std.specs.Prelude.{◌≡◌, ◌+◌, ◌≤◌, eqb, length, cond, Some, None};
ghost use Rattle.realtime.specs.Schema.{feed, stop_time_update};
ghost use Rattle.realtime_views.specs.Promises.Reading.{Ready, Reads};
ghost use Rattle.realtime_views.specs.Promises.Seeks.{Seeks};
ghost use Rattle.realtime_views.specs.Promises.Scalars.{FieldReads, OneRead, OneReadIn, OneReads, OneReadsIn};
ghost use Rattle.realtime_views.specs.Promises.Scalars.{TripReads, TripReady, UpdateReads, blank, kept, own};
ghost use Rattle.realtime_views.specs.Promises.Scalars.{scalar, scalars};
ghost use Rattle.realtime_views.specs.Promises.Narrow.{is_value, to_delay, to_direction, to_header, to_span};
ghost use Rattle.realtime_views.specs.Promises.Narrow.{to_timestamp, to_trip};
ghost use Rattle.realtime_views.specs.Promises.Numbers.{EventReads, LastNumber, NumberReads, StopReads, is_part};
ghost use Rattle.realtime_views.specs.Promises.Numbers.{from_delay, from_event, from_stop, from_time, no_numbers};
ghost use Rattle.realtime.specs.Typed as typed;
ghost use Rattle.realtime_views.specs.Promises.Walks.{NextEntity, NextItem, NextUpdate, SoundWalk};
ghost use Rattle.realtime_views.specs.Promises.Starts.{at_items, at_merged, at_plain};
ghost use Rattle.realtime_views.specs.Promises.Views.{DeletedRead, HeaderRead, SequenceRead, StopRead, TripRead};

use realtime_read::fields::{
    feed_entity, feed_message, stop_time_event, stop_time_update, trip_update,
};
use realtime_read::{FEED_HEADER, STOP_TIME_UPDATE, Step, TRIP_DESCRIPTOR, next};
use wire::Cursor;

// The values of the enums that count.
const DIFFERENTIAL: u64 = 1;

const CANCELED: u64 = 3;

const SKIPPED: u64 = 1;

// The keys of a stop_time_update's fields, a byte each: eight times the number, and the wire type.
const SEQUENCE_KEY: u8 = 8;

const ARRIVAL_KEY: u8 = 18;

const DEPARTURE_KEY: u8 = 26;

const STOP_KEY: u8 = 34;

const RELATIONSHIP_KEY: u8 = 40;

// No field has this number.
pub const NO_FIELD: u64 = 0;

// The last value of a field: of a text, where it stands.
#[derive(Clone, Copy)]
pub enum Scalar {
    Number(u64),
    Text { start: usize, len: usize },
    Nothing,
}

// The last value of each field of a message. No listed scalar has a number above 6.
#[derive(Drop)]
pub struct Scalars {
    pub f1: Scalar,
    pub f2: Scalar,
    pub f3: Scalar,
    pub f4: Scalar,
    pub f5: Scalar,
    pub f6: Scalar,
}

fn nothing() -> Scalars
    ensures { result ≡ blank }
{
    Scalars {
        f1: Scalar::Nothing,
        f2: Scalar::Nothing,
        f3: Scalar::Nothing,
        f4: Scalar::Nothing,
        f5: Scalar::Nothing,
        f6: Scalar::Nothing,
    }
}

fn pick(field: u64, own: u64, x: Scalar, old: Scalar) -> Scalar
    ensures { result ≡ cond (eqb field own) x old }
{
    if field == own { x } else { old }
}

fn keep(d: Scalars, field: u64, x: Scalar) -> Scalars
    ensures { result ≡ kept d field x }
{
    Scalars {
        f1: pick(field, 1, x, d.f1),
        f2: pick(field, 2, x, d.f2),
        f3: pick(field, 3, x, d.f3),
        f4: pick(field, 4, x, d.f4),
        f5: pick(field, 5, x, d.f5),
        f6: pick(field, 6, x, d.f6),
    }
}

// The last values of a message's own fields, from `from` to the end, over what is known already.
fn over_message(s: &[u8], from: usize, message: u64, before: Scalars) -> Scalars
    requires { Ready scalars s.now from before }
    ensures { Reads scalars own feed message s.now from before result }
{
    let mut at = from;
    let mut d = before;
    loop {
        match next(s, at, message) {
            Step::Broken | Step::End => return d,
            Step::Number(field, value, after) => {
                d = keep(d, field, Scalar::Number(value));
                at = after;
            }
            Step::Text(field, start, len, after) => {
                d = keep(d, field, Scalar::Text { start, len });
                at = after;
            }
            Step::Message(_, _, _, _, after) => {
                at = after;
            }
        }
    }
}

// The next message at field `k`, from a boundary between two fields on. What else stands there is passed by its wire
// type, whatever is listed: a call for each field, and what it answers through memory, takes twice the time.
fn seek(s: &[u8], from: usize, k: u64) -> Option<(usize, usize, usize)>
    ensures { Seeks feed k s.now from result }
{
    let mut at = from;
    while at < s.len() {
        let here = Cursor { at };
        let (field, wire, next) = here.key(s)?;
        if wire == wire::LEN {
            let (start, len, after) = next.text(s)?;
            if field == k {
                return Some((start, len, after.at));
            }
            at = after.at;
        } else {
            at = realtime_read::past(s, next, field, wire)?.at;
        }
    }
    None
}

// The last values of the messages at field `a`, of type `inner`, all merged. There are three loops of these lines: one
// that takes the reader as a closure would be no shorter, and would have to promise what any reader makes.
fn over_field(s: &[u8], from: usize, a: u64, inner: u64, before: Scalars) -> Scalars
    requires { Ready scalars s.now from before }
    ensures { FieldReads a inner s.now from before result }
{
    let mut at = from;
    let mut d = before;
    while let Some((start, _, after)) = seek(s, at, a) {
        d = over_message(slices::part(s, 0, after), start, inner, d);
        at = after;
    }
    d
}

// The last value of field `k` alone, from `from` to the end, over what is known already. It steps by itself, as `seek`
// does and for its reason.
fn over_scalar(s: &[u8], from: usize, k: u64, before: Scalar) -> Scalar
    requires { Ready scalar s.now from before }
    ensures { OneReads k s.now from before result }
{
    let mut at = from;
    let mut d = before;
    while at < s.len() {
        let here = Cursor { at };
        let Some((field, wire, next)) = here.key(s) else {
            return d;
        };
        if wire == wire::LEN {
            let Some((start, len, after)) = next.text(s) else {
                return d;
            };
            if field == k {
                d = Scalar::Text { start, len };
            }
            at = after.at;
        } else if wire == wire::VARINT {
            let Some((value, after)) = next.number(s) else {
                return d;
            };
            if field == k {
                d = Scalar::Number(value);
            }
            at = after.at;
        } else {
            let Some(after) = realtime_read::past(s, next, field, wire) else {
                return d;
            };
            at = after.at;
        }
    }
    d
}

// The same of the messages at field `a`, all merged.
fn over_scalar_in(s: &[u8], from: usize, a: u64, k: u64, before: Scalar) -> Scalar
    requires { Ready scalar s.now from before }
    ensures { OneReadsIn a k s.now from before result }
{
    let mut at = from;
    let mut d = before;
    while let Some((start, _, after)) = seek(s, at, a) {
        d = over_scalar(slices::part(s, 0, after), start, k, d);
        at = after;
    }
    d
}

// Of a message in `len` bytes at `start`: the last value of field `k`.
pub fn scalar_at(s: &[u8], start: usize, len: usize, k: u64) -> Scalar
    requires { start + len ≤ length s.now }
    ensures { OneRead k s.now start len result }
{
    over_scalar(slices::part(s, 0, start + len), start, k, Scalar::Nothing)
}

// And that of the messages at field `a`, all merged.
pub fn scalar_in(s: &[u8], start: usize, len: usize, a: u64, k: u64) -> Scalar
    requires { start + len ≤ length s.now }
    ensures { OneReadIn a k s.now start len result }
{
    over_scalar_in(
        slices::part(s, 0, start + len),
        start,
        a,
        k,
        Scalar::Nothing,
    )
}

// Of the trip_updates of an entity: the last values of their trips, and the last delay.
#[derive(Drop)]
pub struct TripScalars {
    pub trip: Scalars,
    pub delay: Scalar,
}

// Of one trip_update, in one walk, over what is known already.
fn over_update(s: &[u8], from: usize, before: TripScalars) -> TripScalars
    requires { TripReady s.now from before }
    ensures { UpdateReads s.now from before result }
{
    let mut at = from;
    let mut trip = before.trip;
    let mut delay = before.delay;
    while at < s.len() {
        let here = Cursor { at };
        let Some((field, wire, next)) = here.key(s) else {
            return TripScalars { trip, delay };
        };
        if wire == wire::LEN {
            let Some((start, _, after)) = next.text(s) else {
                return TripScalars { trip, delay };
            };
            let end = after.at;
            if field == trip_update::TRIP {
                trip = over_message(slices::part(s, 0, end), start, TRIP_DESCRIPTOR, trip);
            }
            at = end;
        } else if wire == wire::VARINT {
            let Some((value, after)) = next.number(s) else {
                return TripScalars { trip, delay };
            };
            if field == trip_update::DELAY {
                delay = Scalar::Number(value);
            }
            at = after.at;
        } else {
            let Some(after) = realtime_read::past(s, next, field, wire) else {
                return TripScalars { trip, delay };
            };
            at = after.at;
        }
    }
    TripScalars { trip, delay }
}

// Of all those of an entity.
fn over_updates(s: &[u8], from: usize) -> TripScalars
    requires { from ≤ length s.now }
    ensures { TripReads s.now from result }
{
    let mut at = from;
    let mut d = TripScalars {
        trip: nothing(),
        delay: Scalar::Nothing,
    };
    while let Some((start, _, after)) = seek(s, at, feed_entity::TRIP_UPDATE) {
        d = over_update(slices::part(s, 0, after), start, d);
        at = after;
    }
    d
}

// Where a text stands. An absent text is empty.
#[derive(Clone, Copy)]
pub struct TextPart {
    pub start: usize,
    pub len: usize,
}

#[derive(Drop)]
pub struct Header {
    pub differential: bool,
    pub timestamp: Option<u64>,
}

#[derive(Clone, Copy)]
pub struct Trip {
    pub id: TextPart,
    pub time: TextPart,
    pub date: TextPart,
    pub route: TextPart,
    pub cancelled: bool,
    pub direction: Option<u32>,
    pub delay: Option<i32>,
}

#[derive(Drop)]
pub struct Event {
    pub delay: Option<i32>,
    pub time: Option<i64>,
}

#[derive(Drop)]
pub struct StopUpdate {
    pub sequence: u32,
    pub stop: TextPart,
    pub arrival: Event,
    pub departure: Event,
    pub skipped: bool,
}

fn uint32(n: u64) -> u32
    ensures { result ≡ typed.uint32 n }
{
    (n % 4294967296) as u32
}

fn int32(n: u64) -> i32
    ensures { result ≡ typed.int32 n }
{
    uint32(n).cast_signed()
}

// The place of a scalar that is a text.
pub fn span_of(x: Scalar) -> TextPart
    ensures { result ≡ to_span x }
{
    match x {
        Scalar::Text { start, len } => TextPart { start, len },
        Scalar::Number(_) | Scalar::Nothing => TextPart { start: 0, len: 0 },
    }
}

impl Scalar {
    fn number(self) -> Option<u64>
        ensures { result ≡ to_timestamp self }
    {
        match self {
            Scalar::Number(n) => Some(n),
            Scalar::Text { .. } | Scalar::Nothing => None,
        }
    }
}

fn direction_of(x: Scalar) -> Option<u32>
    ensures { result ≡ to_direction x }
{
    Some(uint32(x.number()?))
}

fn delay_of(x: Scalar) -> Option<i32>
    ensures { result ≡ to_delay x }
{
    Some(int32(x.number()?))
}

fn is_value(v: u64, x: Scalar) -> bool
    ensures { result ≡ is_value v x }
{
    matches!(x, Scalar::Number(n) if n % 4294967296 == v)
}

fn header_from(h: Scalars) -> Header
    ensures { result ≡ to_header h }
{
    Header {
        differential: is_value(DIFFERENTIAL, h.f2),
        timestamp: h.f3.number(),
    }
}

// The trip of a descriptor's scalars and of its trip_update's delay.
fn trip_from(d: Scalars, delay: Scalar) -> Trip
    ensures { result ≡ to_trip d delay }
{
    Trip {
        id: span_of(d.f1),
        time: span_of(d.f2),
        date: span_of(d.f3),
        route: span_of(d.f5),
        cancelled: is_value(CANCELED, d.f4),
        direction: direction_of(d.f6),
        delay: delay_of(delay),
    }
}

// The last numbers of an event.
#[derive(Drop)]
pub struct EventNumbers {
    pub delay: Option<u64>,
    pub time: Option<u64>,
}

fn no_numbers() -> EventNumbers
    ensures { result ≡ no_numbers }
{
    EventNumbers {
        delay: None,
        time: None,
    }
}

// From `from` to the end, over what is known already.
fn over_event(s: &[u8], from: usize, before: EventNumbers) -> EventNumbers
    requires { from ≤ length s.now }
    ensures { EventReads s.now from before result }
{
    let mut at = from;
    let mut delay = before.delay;
    let mut time = before.time;
    while at < s.len() {
        let here = Cursor { at };
        let Some((field, wire, next)) = here.key(s) else {
            return EventNumbers { delay, time };
        };
        if wire == wire::VARINT {
            let Some((value, after)) = next.number(s) else {
                return EventNumbers { delay, time };
            };
            if field == stop_time_event::DELAY {
                delay = Some(value);
            } else if field == stop_time_event::TIME {
                time = Some(value);
            }
            at = after.at;
        } else {
            let Some(after) = realtime_read::past(s, next, field, wire) else {
                return EventNumbers { delay, time };
            };
            at = after.at;
        }
    }
    EventNumbers { delay, time }
}

fn delay_from(n: Option<u64>) -> Option<i32>
    ensures { result ≡ from_delay n }
{
    Some(int32(n?))
}

fn time_from(n: Option<u64>) -> Option<i64>
    ensures { result ≡ from_time n }
{
    Some(n?.cast_signed())
}

fn event_from(e: EventNumbers) -> Event
    ensures { result ≡ from_event e }
{
    Event {
        delay: delay_from(e.delay),
        time: time_from(e.time),
    }
}

// Five parts, and no struct: one that the loops change field by field lies in memory, and they take 1.04 times as long.
fn stop_from(
    sequence: u64,
    stop: TextPart,
    relationship: u64,
    arrival: EventNumbers,
    departure: EventNumbers,
) -> StopUpdate
    ensures { result ≡ from_stop sequence stop relationship arrival departure }
{
    StopUpdate {
        sequence: uint32(sequence),
        stop,
        arrival: event_from(arrival),
        departure: event_from(departure),
        skipped: relationship % 4294967296 == SKIPPED,
    }
}

// A stop_time_update from `from` to the end: the last of each, in its arrivals and in its departures too.
fn any_stop(s: &[u8], from: usize) -> StopUpdate
    requires { from ≤ length s.now }
    ensures { StopReads s.now from result }
{
    let mut at = from;
    let mut sequence: u64 = 0;
    let mut stop = TextPart { start: 0, len: 0 };
    let mut relationship: u64 = 0;
    let mut arrival = no_numbers();
    let mut departure = no_numbers();
    loop {
        match next(s, at, STOP_TIME_UPDATE) {
            Step::Broken | Step::End => {
                return stop_from(sequence, stop, relationship, arrival, departure);
            }
            Step::Number(field, value, after) => {
                if field == stop_time_update::STOP_SEQUENCE {
                    sequence = value;
                } else if field == stop_time_update::SCHEDULE_RELATIONSHIP {
                    relationship = value;
                }
                at = after;
            }
            Step::Text(field, start, len, after) => {
                if field == stop_time_update::STOP_ID {
                    stop = TextPart { start, len };
                }
                at = after;
            }
            Step::Message(field, _, start, _, after) => {
                if field == stop_time_update::ARRIVAL {
                    arrival = over_event(slices::part(s, 0, after), start, arrival);
                } else if field == stop_time_update::DEPARTURE {
                    departure = over_event(slices::part(s, 0, after), start, departure);
                }
                at = after;
            }
        }
    }
}

// The same. Where each key is the byte of a listed field, as most are, the bytes are compared with those keys: no step
// goes through memory. At another key, or where the bytes are broken, the reading begins anew.
fn over_stop(s: &[u8], from: usize) -> StopUpdate
    requires { from ≤ length s.now }
    ensures { StopReads s.now from result }
{
    let mut at = from;
    let mut sequence: u64 = 0;
    let mut stop = TextPart { start: 0, len: 0 };
    let mut relationship: u64 = 0;
    let mut arrival = no_numbers();
    let mut departure = no_numbers();
    while at < s.len() {
        let b = s[at];
        let here = Cursor { at: at + 1 };
        if b == SEQUENCE_KEY {
            let Some((value, after)) = here.number(s) else {
                return any_stop(s, from);
            };
            sequence = value;
            at = after.at;
        } else if b == RELATIONSHIP_KEY {
            let Some((value, after)) = here.number(s) else {
                return any_stop(s, from);
            };
            relationship = value;
            at = after.at;
        } else {
            let Some((start, len, after)) = here.text(s) else {
                return any_stop(s, from);
            };
            let end = after.at;
            if b == ARRIVAL_KEY {
                arrival = over_event(slices::part(s, 0, end), start, arrival);
            } else if b == DEPARTURE_KEY {
                departure = over_event(slices::part(s, 0, end), start, departure);
            } else if b == STOP_KEY {
                stop = TextPart { start, len };
            } else {
                return any_stop(s, from);
            }
            at = end;
        }
    }
    stop_from(sequence, stop, relationship, arrival, departure)
}

// The last number at field `k` of a message from `from` to the end, 0 where there is none.
fn last_number(s: &[u8], from: usize, k: u64) -> u64
    requires { from ≤ length s.now }
    ensures { LastNumber k s.now from result }
{
    over_scalar(s, from, k, Scalar::Nothing)
        .number()
        .unwrap_or(0)
}

// Whether a byte is the key of a stop_time_update's text or of a message in it.
fn is_part(b: u8) -> bool
    ensures { result ≡ is_part b }
{
    matches!(b, ARRIVAL_KEY | DEPARTURE_KEY | STOP_KEY)
}

// The last sequence, whatever the keys.
fn any_sequence(s: &[u8], from: usize) -> u64
    requires { from ≤ length s.now }
    ensures { NumberReads s.now from stop_time_update 1 result }
{
    last_number(s, from, stop_time_update::STOP_SEQUENCE)
}

// The last sequence of a stop_time_update from `from` to the end, by the bytes of its keys as in `over_stop`.
fn last_sequence(s: &[u8], from: usize) -> u64
    requires { from ≤ length s.now }
    ensures { NumberReads s.now from stop_time_update 1 result }
{
    let mut at = from;
    let mut last: u64 = 0;
    while at < s.len() {
        let b = s[at];
        let here = Cursor { at: at + 1 };
        if b == SEQUENCE_KEY {
            let Some((value, after)) = here.number(s) else {
                return any_sequence(s, from);
            };
            last = value;
            at = after.at;
        } else if b == RELATIONSHIP_KEY {
            let Some((_, after)) = here.number(s) else {
                return any_sequence(s, from);
            };
            at = after.at;
        } else if is_part(b) {
            let Some((_, _, after)) = here.text(s) else {
                return any_sequence(s, from);
            };
            at = after.at;
        } else {
            return any_sequence(s, from);
        }
    }
    last
}

// The merged header of a message, wherever it stands.
pub fn header_of(s: &[u8]) -> Header
    ensures { HeaderRead feed s.now result }
{
    header_from(over_field(s, 0, feed_message::HEADER, FEED_HEADER, nothing()))
}

// Of an entity in `len` bytes at `start`: whether it is deleted.
pub fn is_deleted(s: &[u8], start: usize, len: usize) -> bool
    requires { start + len ≤ length s.now }
    ensures { DeletedRead feed s.now start len result }
{
    let entity = slices::part(s, 0, start + len);
    last_number(entity, start, feed_entity::IS_DELETED) != 0
}

// And its trip, merged from all its trip_updates.
pub fn trip_of(s: &[u8], start: usize, len: usize) -> Trip
    requires { start + len ≤ length s.now }
    ensures { TripRead feed s.now start len result }
{
    let d = over_updates(slices::part(s, 0, start + len), start);
    trip_from(d.trip, d.delay)
}

// A stop_time_update in `len` bytes at `start`.
pub fn stop_of(s: &[u8], start: usize, len: usize) -> StopUpdate
    requires { start + len ≤ length s.now }
    ensures { StopRead feed s.now start len result }
{
    over_stop(slices::part(s, 0, start + len), start)
}

// And its sequence alone.
pub fn sequence_at(s: &[u8], start: usize, len: usize) -> u32
    requires { start + len ≤ length s.now }
    ensures { SequenceRead feed s.now start len result }
{
    let update = slices::part(s, 0, start + len);
    uint32(last_sequence(update, start))
}

// A walk over the messages at a repeated field, of all the messages at another field merged: the next place outside,
// and what is left of the message that is open.
#[derive(Drop)]
pub struct Walk {
    pub outer: usize,
    pub end: usize,
    pub at: usize,
}

#[derive(Drop)]
pub enum Item {
    At {
        start: usize,
        len: usize,
        walk: Walk,
    },
    Done,
}

// The next message at field `k` of those at field `a` of a message.
pub fn next_item(s: &[u8], a: u64, k: u64, walk: Walk) -> Item
    requires { SoundWalk s.now walk.outer walk.end walk.at }
    ensures { NextItem a k s.now walk result }
{
    let mut outer = walk.outer;
    let mut end = walk.end;
    let mut at = walk.at;
    loop {
        if let Some((start, len, after)) = seek(slices::part(s, 0, end), at, k) {
            let walk = Walk {
                outer,
                end,
                at: after,
            };
            return Item::At { start, len, walk };
        }
        let Some((start, _, after)) = seek(s, outer, a) else {
            return Item::Done;
        };
        at = start;
        end = after;
        outer = after;
    }
}

// The messages in one message that starts at `start` and ends at `end`, one after the other.
pub fn items(start: usize, end: usize) -> Walk
    ensures { result ≡ at_items start end }
{
    Walk {
        outer: end,
        end,
        at: start,
    }
}

// The entities of a message, one after the other.
pub fn entities(s: &[u8]) -> Walk
    ensures { result ≡ at_plain s.now }
{
    items(0, s.len())
}

pub fn next_entity(s: &[u8], walk: Walk) -> Item
    requires { SoundWalk s.now walk.outer walk.end walk.at }
    ensures { NextEntity s.now walk result }
{
    next_item(s, NO_FIELD, feed_message::ENTITY, walk)
}

// Those in all the messages at a field of one that starts at `start`, merged, one after the other.
pub fn merged_items(start: usize) -> Walk
    ensures { result ≡ at_merged start }
{
    Walk {
        outer: start,
        end: start,
        at: start,
    }
}

pub fn next_update(s: &[u8], walk: Walk) -> Item
    requires { SoundWalk s.now walk.outer walk.end walk.at }
    ensures { NextUpdate s.now walk result }
{
    next_item(
        s,
        feed_entity::TRIP_UPDATE,
        trip_update::STOP_TIME_UPDATE,
        walk,
    )
}
