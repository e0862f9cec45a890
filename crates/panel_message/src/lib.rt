// A message's call, with the overlay's length as a parameter: its questions in their order and the state that it
// leaves, then zeros behind what was written and in the working buffers.
#![tactic(auto)]

ghost use Rattle.std.specs.Prelude.{◌≡◌, [], ◌∷◌, ◌≤◌, length};
ghost use Rattle.decode.specs.Sizes.{most_old};
ghost use Rattle.panel.specs.Calls as calls;
ghost use Rattle.panel.specs.Given.{Given};
ghost use Rattle.panel.specs.Lengths.{sized};
ghost use Rattle.panel_output.specs.Promises.Ends.{Ends, Zeros};
ghost use Rattle.panel_message.specs.Promises.Message.{message_number, number_by};

use decode::sizes::{KEYS_LENGTH, MARKS_LENGTH, MOST_MESSAGE, ORDER_LENGTH};
use panel_output::Ending;
use realtime::Verdict;
use realtime_read::{FEED_MESSAGE, ID_LIMIT};

// The first of the questions 4 to 6 that has the answer no, else 0.
fn number_by(v: Verdict, named: bool) -> u32
    ensures { result ≡ number_by v named }
{
    match v {
        Verdict::Broken => 4,
        Verdict::Text => 5,
        Verdict::Time => {
            if named {
                return 6;
            }
            5
        }
        Verdict::Fine => {
            if named {
                return 0;
            }
            5
        }
    }
}

// The first of the questions 3 to 6.
fn message_number(feed: &[u8], message: &[u8]) -> u32
    ensures { result ≡ message_number feed.now message.now }
{
    if message.len() > MOST_MESSAGE {
        return 3;
    }
    number_by(
        realtime_read::judge(message, FEED_MESSAGE, ID_LIMIT),
        panel_questions::feed_ok(feed),
    )
}

// The questions in their order, and the state that the message leaves in `new`.
fn message_ending(
    n: usize,
    old: &[u8],
    feed: &[u8],
    message: &[u8],
    new: &mut [u8],
    keys: &mut [u8],
    marks: &mut [u32],
    order: &mut [u32],
) -> Ending
    requires { n ≤ most_old }
    ensures { Ends (sized n) old.now
        (calls.message feed.now message.now (length new.old)
        (length keys.old ∷ length marks.old ∷ length order.old ∷ []))
        new.new result }
{
    let given = [old.len(), new.len(), keys.len(), marks.len(), order.len()];
    let due = [n, n, KEYS_LENGTH, MARKS_LENGTH, ORDER_LENGTH];
    if !panel_output::same_lengths(&given, &due) {
        return Ending::Refused(1);
    }
    let Some(end) = overlay_open::open(old) else {
        return Ending::Refused(2);
    };
    let number = message_number(feed, message);
    if number != 0 {
        return Ending::Refused(number);
    }
    panel_output::of_put(overlay_message::after_message(
        new, keys, marks, order, feed, message, old, end,
    ))
}

fn clear_work(keys: &mut [u8], marks: &mut [u32], order: &mut [u32])
    ensures { Zeros (keys.old ∷ marks.old ∷ order.old ∷ [])
        (keys.new ∷ marks.new ∷ order.new ∷ []) }
{
    slices::clear(keys);
    slices::fill(marks, 0);
    slices::fill(order, 0);
}

// A MESSAGE onto an overlay of n bytes.
pub fn message(
    n: usize,
    old: &[u8],
    feed: &[u8],
    message: &[u8],
    new: &mut [u8],
    keys: &mut [u8],
    marks: &mut [u32],
    order: &mut [u32],
) -> u32
    requires { n ≤ most_old }
    ensures { Given (sized n) old.now
        (calls.message feed.now message.now (length new.old)
        (length keys.old ∷ length marks.old ∷ length order.old ∷ []))
        result new.new
        (keys.new ∷ marks.new ∷ order.new ∷ []) }
{
    let e = message_ending(n, old, feed, message, new, keys, marks, order);
    clear_work(keys, marks, order);
    panel_output::finish(new, e)
}
