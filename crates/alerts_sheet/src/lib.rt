// The alerts of a message, written as an alert sheet: its version, how many they are, and each with its words and the
// ids of its selectors, which have the feed's prefix.
#![tactic(auto)]

ghost use Rattle.std.specs.Prelude.{length, Some};
ghost use Rattle.formats_write.specs.Promises.Adds.{Adds};
ghost use Rattle.formats_write.specs.Promises.Given.{text_w};
ghost use Rattle.realtime_views.specs.Promises.Views.{PartInside, part_in};
ghost use Rattle.alerts_views.specs.Promises.Views.{Writable};
ghost use Rattle.alerts_sheet.specs.Promises.Written.{Fair, ListedIds, Sheetable, Short, WrittenAlert};
ghost use Rattle.alerts_sheet.specs.Promises.Written.{WrittenAlerts, WrittenIds, WrittenSheet, named};

use realtime_read::fields::entity_selector;
use realtime_views::{Item, TextPart};

// The feed's id, ':' and an id of the message, as a text.
fn write_id(
    out: &mut [u8],
    w: Option<usize>,
    feed: &[u8],
    message: &[u8],
    id: TextPart,
) -> Option<usize>
    requires short { Short feed.now message.now }
    requires part_inside { PartInside (length message.now) id }
    ensures { Adds out.old w out.new result
        (text_w (named feed.now (part_in message.now id))) }
{
    let w1 = formats_write::number(out, w, (feed.len() + 1 + id.len) as u64);
    let w2 = formats_write::stretch(out, w1, feed, 0, feed.len());
    let w3 = formats_write::byte(out, w2, b':');
    formats_write::stretch(out, w3, message, id.start, id.start + id.len)
}

// The place behind ids that were written one after the other, and how many they are.
#[derive(Drop)]
struct Ids {
    next: Option<usize>,
    count: u8,
}

// The ids that an entity's selectors have at the field `kind`. An empty one is passed over.
fn list_ids(
    out: &mut [u8],
    w: Option<usize>,
    feed: &[u8],
    message: &[u8],
    start: usize,
    len: usize,
    kind: u64,
) -> Ids
    requires short { Short feed.now message.now }
    requires writable { Writable message.now start len }
    ensures { ListedIds kind feed.now message.now start len
        out.old w out.new result }
{
    let end = start + len;
    let mut walk = realtime_views::merged_items(start);
    let mut next = w;
    let mut count: u8 = 0;
    loop {
        match alerts_views::next_selector(slices::part(message, 0, end), walk) {
            Item::Done => return Ids { next, count },
            Item::At {
                start: at,
                len: size,
                walk: rest,
            } => {
                let id = alerts_views::id_of(message, at, size, kind);
                if id.len > 0 {
                    next = write_id(out, next, feed, message, id);
                    count += 1;
                }
                walk = rest;
            }
        }
    }
}

// The same with their count in front: a byte, for they are few. It is known last, and put over the 0 in its place.
fn write_ids(
    out: &mut [u8],
    w: Option<usize>,
    feed: &[u8],
    message: &[u8],
    start: usize,
    len: usize,
    kind: u64,
) -> Option<usize>
    requires short { Short feed.now message.now }
    requires writable { Writable message.now start len }
    ensures { WrittenIds kind feed.now message.now start len
        out.old w out.new result }
{
    let first = formats_write::byte(out, w, 0);
    let ids = list_ids(out, first, feed, message, start, len, kind);
    let next = ids.next;
    formats_write::byte(out, w, ids.count);
    next
}

// The alert of an entity: header, description, no cause; trips, routes and stops.
fn write_alert(
    out: &mut [u8],
    w: Option<usize>,
    feed: &[u8],
    message: &[u8],
    start: usize,
    len: usize,
) -> Option<usize>
    requires short { Short feed.now message.now }
    requires writable { Writable message.now start len }
    ensures { WrittenAlert feed.now message.now start len
        out.old w out.new result }
{
    let header = alerts_views::header_of(message, start, len);
    let description = alerts_views::description_of(message, start, len);
    let w1 = formats_write::optional_text(out, w, message, header);
    let w2 = formats_write::optional_text(out, w1, message, description);
    let w3 = formats_write::byte(out, w2, 0);
    let w4 = write_ids(out, w3, feed, message, start, len, entity_selector::TRIP);
    let w5 = write_ids(
        out,
        w4,
        feed,
        message,
        start,
        len,
        entity_selector::ROUTE_ID,
    );
    write_ids(out, w5, feed, message, start, len, entity_selector::STOP_ID)
}

// The alerts of a message that are kept.
fn write_alerts(out: &mut [u8], w: Option<usize>, feed: &[u8], message: &[u8]) -> Option<usize>
    requires short { Short feed.now message.now }
    requires fair { Fair message.now }
    ensures { WrittenAlerts feed.now message.now
        out.old w out.new result }
{
    let mut walk = realtime_views::entities(message);
    let mut next = w;
    loop {
        match alerts_views::next_entity(message, walk) {
            Item::Done => return next,
            Item::At {
                start,
                len,
                walk: rest,
            } => {
                if alerts_views::is_left(message, start, len) {
                    next = write_alert(out, next, feed, message, start, len);
                }
                walk = rest;
            }
        }
    }
}

// The sheet of a message of which n alerts are kept.
pub fn write_sheet(out: &mut [u8], feed: &[u8], message: &[u8], n: usize) -> Option<usize>
    requires short { Short feed.now message.now }
    requires sheetable { Sheetable message.now n }
    ensures { WrittenSheet feed.now message.now
        out.old (Some 0) out.new result }
{
    let w1 = formats_write::byte(out, Some(0), 1);
    let w2 = formats_write::number(out, w1, n as u64);
    write_alerts(out, w2, feed, message)
}
