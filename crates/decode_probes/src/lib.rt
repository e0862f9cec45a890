// Calls of the readers of trip messages for a C host: the comparison with the original runs them. They ask nothing of
// their caller.
#![tactic(auto)]

mod table;

ghost use Rattle.std.specs.Prelude.{◌≡◌, false, eqb, length};
ghost use Rattle.basics.specs.Texts.{same};
ghost use Rattle.formats.specs.Format.{list};
ghost use Rattle.formats_judge.specs.Judged.{judge_to};
ghost use Rattle.realtime.specs.Tree.{tree};
ghost use Rattle.realtime.specs.Schema.{feed, feed_message, feed_entity, stop_time_update};
ghost use Rattle.realtime.specs.Judge.{asked, rules};
ghost use Rattle.realtime.specs.Typed.{or_zero};
ghost use Rattle.realtime.specs.Views.{header, stop_update, trip};
ghost use Rattle.realtime_views.specs.Promises.Views.{PartInside, part_in, view_delay, view_direction, view_event};
ghost use Rattle.realtime_views.specs.Promises.Views.{view_header, view_time, view_timestamp};
ghost use Rattle.decode.specs.Sizes.{most_trips, updates_length};
ghost use Rattle.decode.specs.Trip.{trip_entry};
ghost use Rattle.decode_slots.specs.Index.{index};
ghost use Rattle.decode_slots.specs.Places as places;
ghost use Rattle.decode_updates.specs.Line.{laid};
ghost use Rattle.decode_updates.specs.Updates.{updates_at};
ghost use Rattle.decode_probes.specs.Indexing.{sized, unfailed, are_old, message_question, question, answered};
ghost use Rattle.decode_probes.specs.Indexing.{outcome, updates_outcome};
ghost use Rattle.decode_probes.specs.Answers.{question_of, or_nought, of_whole, header_numbers};
ghost use Rattle.decode_probes.specs.Answers.{no_header, trip_numbers, trip_numbers_of, no_trip, event_numbers};
ghost use Rattle.decode_probes.specs.Answers.{stop_numbers, stop_numbers_of, no_stop, texts_are};
ghost use Rattle.decode_probes.specs.Promises.Answers.{is_whole};
ghost use Rattle.basics.specs.Options.{is_some};

use decode::sizes::{
    KEYS_LENGTH, MARKS_LENGTH, MOST_FEED, MOST_MESSAGE, MOST_OLD, MOST_UPDATES, ORDER_LENGTH,
    UPDATES_LENGTH,
};
use realtime::Verdict;
use realtime_read::{FEED_ENTITY, FEED_MESSAGE, ID_LIMIT, STOP_TIME_UPDATE};
use realtime_views::{Event, Header, StopUpdate, TextPart, Trip};
use table::{DEPTH, LIST, TRIPS};

// Answers below this are the number of a question; from it on, it and a count.
const FOUND: usize = 16;

fn question_of(v: Verdict) -> u32
    ensures { result ≡ question_of v }
{
    match v {
        Verdict::Fine => 0,
        Verdict::Broken => 4,
        Verdict::Text => 5,
        Verdict::Time => 6,
    }
}

// The first of the questions 4 to 6 that a message fails, else 0.
#[unsafe(no_mangle)]
pub extern "C" fn trips_judge(s: &[u8]) -> u32
    ensures { result ≡ question_of (asked rules feed_message (tree feed feed_message s.now)) }
{
    question_of(realtime_read::judge(s, FEED_MESSAGE, ID_LIMIT))
}

// Whether a message of a type is not broken.
fn is_whole(s: &[u8], message: u64) -> bool
    ensures { result ≡ is_whole (tree feed message s.now) }
{
    !matches!(realtime_read::judge(s, message, ID_LIMIT), Verdict::Broken)
}

// The header of a message.
#[repr(C)]
#[derive(Default, Drop)]
pub struct HeaderNumbers {
    pub differential: bool,
    pub timed: bool,
    pub timestamp: u64,
}

fn header_numbers(h: Header) -> HeaderNumbers
    ensures { result ≡ header_numbers (view_header h) }
{
    HeaderNumbers {
        differential: h.differential,
        timed: h.timestamp.is_some(),
        timestamp: h.timestamp.unwrap_or(0),
    }
}

#[unsafe(no_mangle)]
pub extern "C" fn trips_header(s: &[u8]) -> HeaderNumbers
    ensures { result ≡ of_whole no_header (λ m. header_numbers (header m)) (tree feed feed_message s.now) }
{
    if is_whole(s, FEED_MESSAGE) {
        return header_numbers(realtime_views::header_of(s));
    }
    HeaderNumbers::default()
}

// The numbers of an entity's trip.
#[repr(C)]
#[derive(Default, Drop)]
pub struct TripNumbers {
    pub cancelled: bool,
    pub directed: bool,
    pub direction: u32,
    pub delayed: bool,
    pub delay: i32,
}

fn trip_numbers(t: Trip) -> TripNumbers
    ensures { result ≡ trip_numbers t.cancelled (view_direction t.direction) (view_delay t.delay) }
{
    TripNumbers {
        cancelled: t.cancelled,
        directed: t.direction.is_some(),
        direction: t.direction.unwrap_or(0),
        delayed: t.delay.is_some(),
        delay: t.delay.unwrap_or(0),
    }
}

#[unsafe(no_mangle)]
pub extern "C" fn trips_trip(e: &[u8]) -> TripNumbers
    ensures { result ≡ of_whole no_trip (λ m. trip_numbers_of (trip m)) (tree feed feed_entity e.now) }
{
    if is_whole(e, FEED_ENTITY) {
        return trip_numbers(realtime_views::trip_of(e, 0, e.len()));
    }
    TripNumbers::default()
}

// Whether a text of s is x.
fn reads(s: &[u8], p: TextPart, x: &[u8]) -> bool
    requires { PartInside (length s.now) p }
    ensures { result ≡ same (part_in s.now p) x.now }
{
    slices::same(slices::part(s, p.start, p.len), x)
}

// Whether the start time, the start date and the route of an entity's trip are these.
#[unsafe(no_mangle)]
pub extern "C" fn trips_texts(e: &[u8], time: &[u8], date: &[u8], route: &[u8]) -> bool
    ensures { result ≡ of_whole false (λ m. texts_are (trip m) time.now date.now
        route.now) (tree feed feed_entity e.now) }
{
    if is_whole(e, FEED_ENTITY) {
        let t = realtime_views::trip_of(e, 0, e.len());
        return reads(e, t.time, time) & reads(e, t.date, date) & reads(e, t.route, route);
    }
    false
}

// The numbers of a stop time update.
#[repr(C)]
#[derive(Clone, Copy, Default)]
pub struct EventNumbers {
    pub delayed: bool,
    pub delay: i32,
    pub timed: bool,
    pub time: i64,
}

#[repr(C)]
#[derive(Default, Drop)]
pub struct StopNumbers {
    pub sequence: u32,
    pub skipped: bool,
    pub arrival: EventNumbers,
    pub departure: EventNumbers,
}

fn event_numbers(e: Event) -> EventNumbers
    ensures { result ≡ event_numbers (view_event e) }
{
    EventNumbers {
        delayed: e.delay.is_some(),
        delay: e.delay.unwrap_or(0),
        timed: e.time.is_some(),
        time: e.time.unwrap_or(0),
    }
}

fn stop_numbers(u: StopUpdate) -> StopNumbers
    ensures { result ≡ stop_numbers u.sequence u.skipped (view_event u.arrival) (view_event u.departure) }
{
    StopNumbers {
        sequence: u.sequence,
        skipped: u.skipped,
        arrival: event_numbers(u.arrival),
        departure: event_numbers(u.departure),
    }
}

#[unsafe(no_mangle)]
pub extern "C" fn trips_stop(u: &[u8]) -> StopNumbers
    ensures { result ≡ of_whole no_stop (λ m. stop_numbers_of (stop_update m))
        (tree feed stop_time_update u.now) }
{
    if is_whole(u, STOP_TIME_UPDATE) {
        return stop_numbers(realtime_views::stop_of(u, 0, u.len()));
    }
    StopNumbers::default()
}

// Whether the stop id of a stop time update is this.
#[unsafe(no_mangle)]
pub extern "C" fn trips_stop_text(u: &[u8], stop: &[u8]) -> bool
    ensures { result ≡ of_whole false (λ m. same (stop_update m).stop stop.now)
        (tree feed stop_time_update u.now) }
{
    if is_whole(u, STOP_TIME_UPDATE) {
        let r = realtime_views::stop_of(u, 0, u.len());
        return reads(u, r.stop, stop);
    }
    false
}

// The places of an entity's updates, in ascending order of sequence, in 387 words: the first of the questions 1, 3, 4
// and 7 with the answer no, or 16 and how many they are.
#[unsafe(no_mangle)]
pub extern "C" fn trips_updates(updates: &mut [u32], e: &[u8]) -> usize
    ensures { answered (λ n. updates_at e.now (laid n updates.new)) result
        ≡ updates_outcome (eqb (length updates.old) updates_length) e.now }
{
    if updates.len() != UPDATES_LENGTH {
        return 1;
    }
    if e.len() > MOST_MESSAGE {
        return 3;
    }
    if is_whole(e, FEED_ENTITY) {
        let n = decode_updates::updates_of(updates, e, 0, e.len());
        if n > MOST_UPDATES {
            return 7;
        }
        return FOUND + n;
    }
    4
}

// The end of the trips with which old begins, and the first of the questions 5 to 7 that they fail.
fn judge_old(old: &[u8]) -> Option<(usize, u32)>
    ensures { result ≡ judge_to (list most_trips trip_entry) old.now 0 }
{
    formats_judge::judge_value(&TRIPS, DEPTH, LIST, old, 0)
}

fn is_unfailed(j: Option<(usize, u32)>) -> bool
    ensures { result ≡ unfailed j }
{
    matches!(j, Some((_, 0)))
}

// Whether old begins with trips that a feed may have.
fn are_old(old: &[u8]) -> bool
    ensures { result ≡ are_old old.now }
{
    old.len() <= MOST_OLD && is_unfailed(judge_old(old))
}

fn is_sized(keys: usize, marks: usize, order: usize) -> bool
    ensures { result ≡ sized keys marks order }
{
    (keys == KEYS_LENGTH) & (marks == MARKS_LENGTH) & (order == ORDER_LENGTH)
}

// The first of the questions 3 to 6 that a message fails, else 0.
fn message_question(feed: &[u8], s: &[u8]) -> u32
    ensures { result ≡ message_question feed.now s.now }
{
    if s.len() > MOST_MESSAGE {
        return 3;
    }
    let q = trips_judge(s);
    if q == 4 {
        return 4;
    }
    if feed.len() > MOST_FEED {
        return 5;
    }
    q
}

// The same, after that of the working slices' lengths, 1, and that of the old trips, 2.
fn first_question(keys: usize, marks: usize, order: usize, feed: &[u8], s: &[u8], old: &[u8]) -> u32
    ensures { result ≡ question (sized keys marks order) feed.now s.now
        old.now }
{
    if is_sized(keys, marks, order) {
        if are_old(old) {
            return message_question(feed, s);
        }
        return 2;
    }
    1
}

// What a message leaves of a feed's trips: the first of the questions 1 to 7 with the answer no, or 16 and how many
// slots of the index are in use.
#[unsafe(no_mangle)]
pub extern "C" fn trips_index(
    keys: &mut [u8],
    marks: &mut [u32],
    order: &mut [u32],
    feed: &[u8],
    s: &[u8],
    old: &[u8],
) -> usize
    ensures { answered (λ n. places.held s.now old.now
        (index keys.new marks.new order.new n)) result
        ≡ outcome (sized (length keys.old) (length marks.old) (length order.old))
        feed.now s.now old.now }
{
    let q = first_question(keys.len(), marks.len(), order.len(), feed, s, old);
    if q != 0 {
        return q as usize;
    }
    match decode_index::leave(keys, marks, order, feed, s, old, 0) {
        Ok((n, _)) => FOUND + n,
        Err(_) => 7,
    }
}
