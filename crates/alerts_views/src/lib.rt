// The alerts of a message, read after the validator: a broken message is answered with anything.
#![tactic(auto)]

ghost use Rattle.std.specs.Prelude.{◌+◌, ◌≤◌, length};
ghost use Rattle.realtime_views.specs.Promises.Walks.{SoundWalk};
ghost use Rattle.alerts_views.specs.Promises.Views.{CountRead, FewRead, IdRead, KeptRead, LeftRead, WordsRead};
ghost use Rattle.alerts_views.specs.Promises.Walks.{AlertCounted, NextEntity, NextSelector, SelectorsCounted};
ghost use Rattle.alerts_views.specs.Promises.Words.{DeletedRead, FirstRead, TextRead, Worded};

use formats::Span;
use realtime_read::fields::{
    alert, alert_entity, entity_selector, feed_entity, feed_message, translated_string,
    translation, trip_descriptor,
};
use realtime_views::{Item, NO_FIELD, Scalar, TextPart, Walk};

// An alert has at most so many ids of a kind.
const MOST_IDS: usize = 32;

// A sheet has at most so many alerts.
pub const MOST_ALERTS: usize = 256;

// Of a message in `len` bytes at `start`: the first message at field `k`.
fn first_item(message: &[u8], start: usize, len: usize, k: u64) -> Item
    requires { start + len ≤ length message.now }
    ensures { FirstRead k message.now start len result }
{
    let end = start + len;
    let walk = realtime_views::items(start, end);
    realtime_views::next_item(slices::part(message, 0, end), NO_FIELD, k, walk)
}

// Whether an entity is deleted: any bit of the number.
fn is_deleted(message: &[u8], start: usize, len: usize) -> bool
    requires { start + len ≤ length message.now }
    ensures { DeletedRead message.now start len result }
{
    match realtime_views::scalar_at(message, start, len, feed_entity::IS_DELETED) {
        Scalar::Number(n) => n != 0,
        Scalar::Text { start: _, len: _ } => false,
        Scalar::Nothing => false,
    }
}

// Whether an entity has an alert, be it empty, and isn't deleted.
pub fn is_left(message: &[u8], start: usize, len: usize) -> bool
    requires { start + len ≤ length message.now }
    ensures { LeftRead message.now start len result }
{
    if is_deleted(message, start, len) {
        return false;
    }
    match first_item(message, start, len, alert_entity::ALERT) {
        Item::At {
            start: _,
            len: _,
            walk: _,
        } => true,
        Item::Done => false,
    }
}

// The text of a translation. A text may be given and empty.
fn text_of(message: &[u8], start: usize, len: usize) -> Option<Span>
    requires { start + len ≤ length message.now }
    ensures { TextRead message.now start len result }
{
    match realtime_views::scalar_at(message, start, len, translation::TEXT) {
        Scalar::Text { start, len } => Some(Span {
            from: start,
            to: start + len,
        }),
        Scalar::Number(_) => None,
        Scalar::Nothing => None,
    }
}

// The text of the first translation, of all the strings at field `k` of all the alerts of an entity, merged: the first
// string that has a translation decides.
fn words(message: &[u8], start: usize, len: usize, k: u64) -> Option<Span>
    requires len_in_bounds { start + len ≤ length message.now }
    requires worded { Worded k }
    ensures { WordsRead message.now start len k result }
{
    let end = start + len;
    let mut walk = realtime_views::merged_items(start);
    loop {
        let found = realtime_views::next_item(
            slices::part(message, 0, end),
            alert_entity::ALERT,
            k,
            walk,
        );
        let Item::At {
            start: i,
            len: l,
            walk: rest,
        } = found
        else {
            return None;
        };
        match first_item(message, i, l, translated_string::TRANSLATION) {
            Item::At {
                start: j,
                len: m,
                walk: _,
            } => return text_of(message, j, m),
            Item::Done => {
                walk = rest;
            }
        }
    }
}

// The words of an entity's header.
pub fn header_of(message: &[u8], start: usize, len: usize) -> Option<Span>
    requires { start + len ≤ length message.now }
    ensures { WordsRead message.now start len 10 result }
{
    words(message, start, len, alert::HEADER_TEXT)
}

// And those of its description.
pub fn description_of(message: &[u8], start: usize, len: usize) -> Option<Span>
    requires { start + len ≤ length message.now }
    ensures { WordsRead message.now start len 11 result }
{
    words(message, start, len, alert::DESCRIPTION_TEXT)
}

// The id of a selector in `len` bytes at `start`, by the number of its field: of its trip, its route or its stop.
pub fn id_of(message: &[u8], start: usize, len: usize, kind: u64) -> TextPart
    requires { start + len ≤ length message.now }
    ensures { IdRead message.now start len kind result }
{
    if kind == entity_selector::TRIP {
        let id = realtime_views::scalar_in(
            message,
            start,
            len,
            entity_selector::TRIP,
            trip_descriptor::TRIP_ID,
        );
        return realtime_views::span_of(id);
    }
    if kind == entity_selector::ROUTE_ID {
        let id = realtime_views::scalar_at(message, start, len, entity_selector::ROUTE_ID);
        return realtime_views::span_of(id);
    }
    let id = realtime_views::scalar_at(message, start, len, entity_selector::STOP_ID);
    realtime_views::span_of(id)
}

// The next selector of an entity's alerts, merged.
pub fn next_selector(s: &[u8], walk: Walk) -> Item
    requires { SoundWalk s.now walk.outer walk.end walk.at }
    ensures { NextSelector s.now walk result }
{
    realtime_views::next_item(s, alert_entity::ALERT, alert::INFORMED_ENTITY, walk)
}

// How many selectors an entity's alert has: counted up to the first above 32.
fn count_selectors(message: &[u8], start: usize, len: usize) -> usize
    requires { start + len ≤ length message.now }
    ensures { SelectorsCounted message.now start len result }
{
    let end = start + len;
    let mut walk = realtime_views::merged_items(start);
    let mut n: usize = 0;
    while n <= MOST_IDS {
        match next_selector(slices::part(message, 0, end), walk) {
            Item::Done => return n,
            Item::At {
                start: _,
                len: _,
                walk: rest,
            } => {
                walk = rest;
                n += 1;
            }
        }
    }
    n
}

// How many ids of a kind it has: counted up to the first above 32.
fn count_ids(message: &[u8], start: usize, len: usize, kind: u64) -> usize
    requires { start + len ≤ length message.now }
    ensures { CountRead message.now start len kind result }
{
    let end = start + len;
    let mut walk = realtime_views::merged_items(start);
    let mut n: usize = 0;
    while n <= MOST_IDS {
        match next_selector(slices::part(message, 0, end), walk) {
            Item::Done => return n,
            Item::At {
                start: at,
                len: size,
                walk: rest,
            } => {
                let id = id_of(message, at, size, kind);
                if id.len > 0 {
                    n += 1;
                }
                walk = rest;
            }
        }
    }
    n
}

// Whether it has at most 32 ids of each kind. It has no more of a kind than selectors, which are few as a rule.
pub fn is_few(message: &[u8], start: usize, len: usize) -> bool
    requires { start + len ≤ length message.now }
    ensures { FewRead message.now start len result }
{
    if count_selectors(message, start, len) <= MOST_IDS {
        return true;
    }
    if count_ids(message, start, len, entity_selector::TRIP) > MOST_IDS {
        return false;
    }
    if count_ids(message, start, len, entity_selector::ROUTE_ID) > MOST_IDS {
        return false;
    }
    count_ids(message, start, len, entity_selector::STOP_ID) <= MOST_IDS
}

// The next entity of a message of alerts.
pub fn next_entity(s: &[u8], walk: Walk) -> Item
    requires { SoundWalk s.now walk.outer walk.end walk.at }
    ensures { NextEntity s.now walk result }
{
    realtime_views::next_item(s, NO_FIELD, feed_message::ENTITY, walk)
}

// With the alert of an entity, n are kept already: one more, or 257 where it has too many ids.
fn with_alert(message: &[u8], start: usize, len: usize, n: usize) -> usize
    requires { (start + len ≤ length message.now) × (n ≤ 256) }
    ensures { AlertCounted message.now start len n result }
{
    if !is_left(message, start, len) {
        return n;
    }
    if is_few(message, start, len) {
        return n + 1;
    }
    MOST_ALERTS + 1
}

// How many alerts of a message are kept: 257 where they are more than 256, or where one of them has too many ids.
pub fn kept(message: &[u8]) -> usize
    ensures { KeptRead message.now result }
{
    let mut walk = realtime_views::entities(message);
    let mut n: usize = 0;
    while n <= MOST_ALERTS {
        match next_entity(message, walk) {
            Item::Done => return n,
            Item::At {
                start,
                len,
                walk: rest,
            } => {
                n = with_alert(message, start, len, n);
                walk = rest;
            }
        }
    }
    n
}
