// The state after a message: its trips are written anew, with their count and the message's timestamp; all else of the
// state is copied.
#![tactic(auto)]

ghost use Rattle.std.specs.Prelude.{◌≡◌, ℕ, ◌≤◌, length};
ghost use Rattle.std.proofs.Math.Option.{some};
ghost use Rattle.formats.specs.Number.{zig};
ghost use Rattle.formats.specs.Format.{write};
ghost use Rattle.formats_write.specs.Promises.Adds.{Adds, Wrote};
ghost use Rattle.formats_write.specs.Promises.Given.{given_signed, optional_w};
ghost use Rattle.realtime.specs.Tree.{Tree, tree};
ghost use Rattle.realtime.specs.Schema.{feed_message};
ghost use Rattle.realtime.specs.Schema as schema;
ghost use Rattle.realtime.specs.Typed.{int64};
ghost use Rattle.realtime_views.specs.Promises.Views.{view_timestamp};
ghost use Rattle.decode.specs.Sizes.{most_feed, most_message, most_old};
ghost use Rattle.decode_slots.specs.Index.{index};
ghost use Rattle.decode_slots.specs.Places.{held};
ghost use Rattle.decode_slots.specs.Promises.Index.{Lent};
ghost use Rattle.decode_index.specs.Promises.Message.{JudgedMessage};
ghost use Rattle.decode_write.specs.Promises.Slots.{Writable};
ghost use Rattle.decode_write.specs.Promises.Written.{signed_w};
ghost use Rattle.overlay.specs.Change.{put_feed};
ghost use Rattle.overlay.specs.State.{Feed, State, alerts_of, feed_with, overlay, vehicles_of, version_of};
ghost use Rattle.overlay.specs.State as state;
ghost use Rattle.overlay_feeds.specs.Promises.Parts.{PartsOf};
ghost use Rattle.overlay_frame.specs.Promises.Frame.{Spot};
ghost use Rattle.overlay_open.specs.Promises.Held.{Open};
ghost use Rattle.overlay_message.specs.Promises.Message.{Leads, Ready};
ghost use Rattle.overlay_message.specs.Promises.Message.{feed_after, timestamp_after};

use overlay_feeds::Parts;
use overlay_frame::{FeedSpot, NO_FEED};

// 64 bits read as signed, as their zigzag code.
fn signed_code(n: u64) -> u64
    ensures { result ≡ zig (int64 n) }
{
    if n < 9223372036854775808 {
        return 2 * n;
    }
    2 * (18446744073709551615 - n) + 1
}

// The message's timestamp, else the old one.
fn put_timestamp(
    out: &mut [u8],
    w: Option<usize>,
    given: Option<u64>,
    known: Option<i64>,
) -> Option<usize>
    ensures { Adds out.old w out.new result
        (optional_w signed_w (timestamp_after (view_timestamp given) (given_signed known))) }
{
    match given {
        Some(n) => {
            let q = formats_write::byte(out, w, 1);
            formats_write::number(out, q, signed_code(n))
        }
        None => formats_write::optional_signed(out, w, known),
    }
}

// The body of a feed whose parts stand in `home` at p: timestamp, count and trips are new, vehicles and alerts copied.
fn write_body(
    out: &mut [u8],
    w: Option<usize>,
    given: Option<u64>,
    known: Option<i64>,
    count: u64,
    keys: &[u8],
    marks: &[u32],
    order: &[u32],
    n: usize,
    message: &[u8],
    home: &[u8],
    p: Parts,
) -> Option<usize>
    requires message_len_bound { length message.now ≤ most_message }
    requires writable { Writable message.now home.now keys.now marks.now order.now n }
    ensures { (F : Feed) (a e : ℕ) → PartsOf home.now F a e p
        → Adds out.old w out.new result (write state.feed (feed_with
        (timestamp_after (view_timestamp given) (given_signed known)) count
        (held message.now home.now (index keys.now marks.now
        order.now n)) (vehicles_of F) (alerts_of F))) }
{
    let w1 = put_timestamp(out, w, given, known);
    let w2 = formats_write::number(out, w1, count);
    let w3 = decode_trips::write_trips(out, w2, keys, marks, order, n, message, home);
    formats_write::stretch(out, w3, home, p.vehicles, p.end)
}

// The feed as the message s leaves it.
fn write_feed(
    out: &mut [u8],
    w: Option<usize>,
    keys: &[u8],
    marks: &[u32],
    order: &[u32],
    n: usize,
    feed: &[u8],
    message: &[u8],
    home: &[u8],
    p: Parts,
) -> Option<usize>
    requires message_len_bound { length message.now ≤ most_message }
    requires writable { Writable message.now home.now keys.now marks.now order.now n }
    ensures { (F : Feed) (a e : ℕ) (t : Tree) → PartsOf home.now F a e p
        → tree schema.feed feed_message message.now ≡ some t
        → Adds out.old w out.new result (write state.feed (feed_after feed.now t F
        (held message.now home.now (index keys.now marks.now
        order.now n)))) }
{
    let h = realtime_views::header_of(message);
    let given = h.timestamp;
    let known = p.timestamp;
    let count = decode_write::count_left(feed, keys, marks, order, n) as u64;
    write_body(
        out, w, given, known, count, keys, marks, order, n, message, home, p,
    )
}

// The state whose feed goes between `from` and `to`, with it of `count` feeds.
fn write_state(
    new: &mut [u8],
    keys: &[u8],
    marks: &[u32],
    order: &[u32],
    n: usize,
    feed: &[u8],
    message: &[u8],
    old: &[u8],
    end: usize,
    home: &[u8],
    p: Parts,
    from: usize,
    to: usize,
    count: u64,
) -> Option<usize>
    requires message_len_bound { length message.now ≤ most_message }
    requires writable { Writable message.now home.now keys.now marks.now order.now n }
    ensures { (st : State) (F : Feed) (a e : ℕ) (t : Tree)
        → Spot old.now end st feed.now from to count → PartsOf home.now F a e p
        → tree schema.feed feed_message message.now ≡ some t
        → Wrote new.old new.new result (write overlay (put_feed feed.now
        (feed_after feed.now t F
        (held message.now home.now (index keys.now marks.now
        order.now n))) (version_of st) st)) }
{
    let version = overlay_feeds::read_head(old).version;
    let w1 = overlay_frame::opening(new, Some(0), version, count, old, from, feed);
    let w2 = write_feed(new, w1, keys, marks, order, n, feed, message, home, p);
    overlay_frame::closing(new, w2, old, to, end)
}

// What the message s leaves of the feed whose body stands in `home` at `body` goes into the state; or its trips pass a
// limit of question 7.
fn change(
    new: &mut [u8],
    keys: &mut [u8],
    marks: &mut [u32],
    order: &mut [u32],
    feed: &[u8],
    message: &[u8],
    old: &[u8],
    end: usize,
    from: usize,
    known: bool,
    count: u64,
    home: &[u8],
    body: usize,
) -> Option<usize>
    requires lent { Lent keys.old marks.old order.old }
    requires feed_len_bound { (length feed.now ≤ most_feed) × (length message.now ≤ most_message) }
    requires judged_message { JudgedMessage message.now }
    requires ready { Ready old.now end feed.now from known count home.now body }
    ensures { Leads new.old new.new result feed.now message.now old.now }
{
    let front = overlay_feeds::read_front(home, body);
    match decode_index::leave(keys, marks, order, feed, message, home, front.trips) {
        Err(_) => None,
        Ok((n, vehicles)) => {
            let p = overlay_feeds::read_back(home, front, vehicles);
            let to = overlay_frame::behind(known, p.end, from);
            write_state(
                new, keys, marks, order, n, feed, message, old, end, home, p, from, to, count,
            )
        }
    }
}

// The state that stands in `old` up to `end`, after a judged message of a feed; or it passes a limit of question 7, or
// has no room in `new`.
pub fn after_message(
    new: &mut [u8],
    keys: &mut [u8],
    marks: &mut [u32],
    order: &mut [u32],
    feed: &[u8],
    message: &[u8],
    old: &[u8],
    end: usize,
) -> Option<usize>
    requires lent { Lent keys.old marks.old order.old }
    requires feed_len_bound { (length feed.now ≤ most_feed) × (length message.now ≤ most_message) }
    requires judged_message { JudgedMessage message.now }
    requires fact { Open old.now end × (length old.now ≤ most_old) }
    ensures { Leads new.old new.new result feed.now message.now old.now }
{
    let spot = overlay_frame::spot(old, feed)?;
    match spot {
        FeedSpot::Known(from, body, count) => {
            change(
                new, keys, marks, order, feed, message, old, end, from, true, count, old, body,
            )
        }
        FeedSpot::New(from, count) => {
            change(
                new, keys, marks, order, feed, message, old, end, from, false, count, &NO_FEED, 0,
            )
        }
    }
}
