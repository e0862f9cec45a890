// The messages of GTFS Realtime, read by what a list says of each field.
#![tactic(auto)]

pub mod fields; // the numbers of the listed fields

ghost use Rattle.std.specs.Prelude.{◌≡◌, cond};
ghost use Rattle.wire.specs.Promises.Places.{skipped_at};
ghost use Rattle.formats.specs.Class.{in_class};
ghost use Rattle.realtime_read.specs.Promises.Steps.{Stepped, number_behind, text_behind};
ghost use Rattle.realtime.specs.Tree.{tree};
ghost use Rattle.realtime.specs.Judge.{asked, rules_by, limit_by, class_by, text_rule, number_rule};
ghost use Rattle.realtime_read.specs.Promises.Judge.{fine, asked_first};
ghost use Rattle.realtime.specs.Schema.{feed};
ghost use Rattle.realtime_read.specs.Promises.Schema.{holds, row};

use fields::{stop_time_event, trip_descriptor};
use realtime::Verdict;
use wire::Cursor;

// What a field holds.
#[derive(Drop)]
pub enum Holds {
    Number,
    Text,
    Message(u64),
    Unlisted,
}

// The types of the messages.
pub const FEED_MESSAGE: u64 = 0;

pub const FEED_HEADER: u64 = 1;

pub const FEED_ENTITY: u64 = 2;

pub const TRIP_UPDATE: u64 = 3;

pub const TRIP_DESCRIPTOR: u64 = 4;

pub const STOP_TIME_UPDATE: u64 = 5;

pub const STOP_TIME_EVENT: u64 = 6;

// Those of a message of alerts.
pub const ALERT_MESSAGE: u64 = 7;

pub const ALERT_ENTITY: u64 = 8;

pub const ALERT: u64 = 9;

pub const ENTITY_SELECTOR: u64 = 10;

pub const SELECTED_TRIP: u64 = 11;

pub const HEADER_TEXT: u64 = 12;

pub const HEADER_TRANSLATION: u64 = 13;

pub const DESCRIPTION_TEXT: u64 = 14;

pub const DESCRIPTION_TRANSLATION: u64 = 15;

// What a field holds, in five bits: one of these, or MESSAGE and its type.
const UNLISTED: u64 = 0;

const NUMBER: u64 = 1;

const TEXT: u64 = 2;

const MESSAGE: u64 = 3;

// Every listed field has a number below this.
const FIELDS: u64 = 12;

// Groups nest at most this deep.
const GROUPS_DEEP: usize = 16;

// The longest id of a message of trips.
pub const ID_LIMIT: usize = 64;

// The longest start time or start date, header and description.
const DATE_LIMIT: usize = 16;

const HEADER_LIMIT: usize = 512;

const DESCRIPTION_LIMIT: usize = 2048;

// The classes of texts: ids are printable, words are UTF-8.
const PRINTABLE: u64 = 1;

const UTF8: u64 = 3;

// The latest time of a stop, in seconds since 1970 UTC.
const LATEST: u64 = 4102444800;

// What the fields of a message hold, five bits each, that of field 0 last: nothing that is listed, NUMBER, TEXT, or
// MESSAGE and a type. Shifts by it are faster than jumps by a table of arms.
fn row_of(message: u64) -> u64
    ensures { result ≡ row message }
{
    match message {
        FEED_MESSAGE => 0b00101_00100_00000,
        FEED_HEADER => 0b00001_00001_00000_00000,
        FEED_ENTITY => 0b00110_00001_00000_00000,
        TRIP_UPDATE => 0b00001_00000_00000_01000_00111_00000,
        TRIP_DESCRIPTOR => 0b00001_00010_00001_00010_00010_00010_00000,
        STOP_TIME_UPDATE => 0b00001_00010_01001_01001_00001_00000,
        STOP_TIME_EVENT => 0b00001_00001_00000,
        ALERT_MESSAGE => 0b01011_00000_00000,
        ALERT_ENTITY => 0b01100_00000_00000_00001_00000_00000,
        ALERT => 0b10001_01111_00000_00000_00000_00000_01101_00000_00000_00000_00000_00000,
        ENTITY_SELECTOR => 0b00010_01110_00000_00010_00000_00000,
        SELECTED_TRIP => 0b00010_00000,
        HEADER_TEXT => 0b10000_00000,
        HEADER_TRANSLATION => 0b00010_00000,
        DESCRIPTION_TEXT => 0b10010_00000,
        DESCRIPTION_TRANSLATION => 0b00010_00000,
        _ => 0,
    }
}

// What a field of a message holds.
pub fn kind_of(message: u64, field: u64) -> Holds
    ensures { result ≡ holds (feed message field) }
{
    if field >= FIELDS {
        return Holds::Unlisted;
    }
    let k = (row_of(message) >> (field * 5)) % 32;
    match k {
        UNLISTED => Holds::Unlisted,
        NUMBER => Holds::Number,
        TEXT => Holds::Text,
        _ => Holds::Message(k - MESSAGE),
    }
}

// The next listed field of a message, from a boundary between two fields on.
#[derive(Drop)]
pub enum Step {
    // field, value, next place
    Number(u64, u64, usize),
    // field, start, length, next place
    Text(u64, usize, usize, usize),
    // field, type, start, length, next place
    Message(u64, u64, usize, usize, usize),
    End,
    Broken,
}

// Past the field behind a key. The slice goes as a part of its own: one that is handed to a function that calls
// itself would lie in memory, in the callers too.
pub fn past(s: &[u8], from: Cursor, field: u64, wire: u64) -> Option<Cursor>
    ensures { result ≡ skipped_at s.now from.at field wire 16 }
{
    from.skip(slices::part(s, 0, s.len()), field, wire, GROUPS_DEEP)
}

// The number behind a key, where its wire type is a number's.
fn number_behind(s: &[u8], from: Cursor, wire: u64) -> Option<(u64, Cursor)>
    ensures { result ≡ number_behind s.now from.at wire }
{
    if wire != wire::VARINT {
        return None;
    }
    from.number(s)
}

fn text_behind(s: &[u8], from: Cursor, wire: u64) -> Option<(usize, usize, Cursor)>
    ensures { result ≡ text_behind s.now from.at wire }
{
    if wire != wire::LEN {
        return None;
    }
    from.text(s)
}

pub fn next(s: &[u8], from: usize, message: u64) -> Step
    ensures { Stepped feed message s.now from result }
{
    let mut at = from;
    while at < s.len() {
        let here = Cursor { at };
        let Some((field, wire, next)) = here.key(s) else {
            return Step::Broken;
        };
        match kind_of(message, field) {
            Holds::Unlisted => {
                let Some(after) = past(s, next, field, wire) else {
                    return Step::Broken;
                };
                at = after.at;
            }
            Holds::Number => {
                let Some((value, after)) = number_behind(s, next, wire) else {
                    return Step::Broken;
                };
                return Step::Number(field, value, after.at);
            }
            Holds::Text => {
                let Some((start, len, after)) = text_behind(s, next, wire) else {
                    return Step::Broken;
                };
                return Step::Text(field, start, len, after.at);
            }
            Holds::Message(inner) => {
                let Some((start, len, after)) = text_behind(s, next, wire) else {
                    return Step::Broken;
                };
                return Step::Message(field, inner, start, len, after.at);
            }
        }
    }
    Step::End
}

// Of two parts' judgements the one that is asked first. One that is fine, as most are, stands in front: without that
// `judge` takes a twentieth more.
fn worse(a: Verdict, b: Verdict) -> Verdict
    ensures { result ≡ asked_first a b }
{
    if b == Verdict::Fine { a } else { a.min(b) }
}

// The longest text of a field, where an id has at most `ids` bytes.
fn text_limit(message: u64, field: u64, ids: usize) -> usize
    ensures { result ≡ limit_by ids message field }
{
    match message {
        TRIP_DESCRIPTOR => match field {
            trip_descriptor::START_TIME | trip_descriptor::START_DATE => DATE_LIMIT,
            _ => ids,
        },
        HEADER_TRANSLATION => HEADER_LIMIT,
        DESCRIPTION_TRANSLATION => DESCRIPTION_LIMIT,
        _ => ids,
    }
}

// Whether a text is of its class: words are UTF-8, ids are printable.
fn is_fit(s: &[u8], message: u64) -> bool
    ensures { result ≡ in_class (class_by message) s.now }
{
    match message {
        HEADER_TRANSLATION | DESCRIPTION_TRANSLATION => formats_text::in_class(UTF8, s),
        _ => formats_text::in_class(PRINTABLE, s),
    }
}

fn judge_text(s: &[u8], message: u64, field: u64, ids: usize) -> Verdict
    ensures { result ≡ cond (text_rule ids message field s.now) Verdict.Fine Verdict.Text }
{
    if s.len() <= text_limit(message, field, ids) && is_fit(s, message) {
        Verdict::Fine
    } else {
        Verdict::Text
    }
}

fn judge_number(message: u64, field: u64, value: u64) -> Verdict
    ensures { result ≡ cond (number_rule message field value) Verdict.Fine Verdict.Time }
{
    if message == STOP_TIME_EVENT && field == stop_time_event::TIME && value > LATEST {
        Verdict::Time
    } else {
        Verdict::Fine
    }
}

// The judgement of a message of a type, by its own bytes, where an id has at most `ids` of them. It steps by itself and
// not by `next`, which the compiler would leave a function of its own: that takes twice the time.
pub fn judge(s: &[u8], message: u64, ids: usize) -> Verdict
    ensures { result ≡ asked (rules_by ids) message (tree feed message s.now) }
{
    let mut at: usize = 0;
    let mut worst = Verdict::Fine;
    while at < s.len() {
        let here = Cursor { at };
        let Some((field, wire, next)) = here.key(s) else {
            return Verdict::Broken;
        };
        match kind_of(message, field) {
            Holds::Unlisted => {
                let Some(after) = past(s, next, field, wire) else {
                    return Verdict::Broken;
                };
                at = after.at;
            }
            Holds::Number => {
                let Some((value, after)) = number_behind(s, next, wire) else {
                    return Verdict::Broken;
                };
                worst = worse(worst, judge_number(message, field, value));
                at = after.at;
            }
            Holds::Text => {
                let Some((start, len, after)) = text_behind(s, next, wire) else {
                    return Verdict::Broken;
                };
                worst = worse(
                    worst,
                    judge_text(slices::part(s, start, len), message, field, ids),
                );
                at = after.at;
            }
            Holds::Message(inner) => {
                let Some((start, len, after)) = text_behind(s, next, wire) else {
                    return Verdict::Broken;
                };
                worst = worse(worst, judge(slices::part(s, start, len), inner, ids));
                at = after.at;
            }
        }
    }
    worst
}
