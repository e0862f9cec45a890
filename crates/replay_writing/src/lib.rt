// The calls of a script that write an overlay, each into a part of what is lent.
#![tactic(auto)]

ghost use Rattle.std.specs.Prelude.{◌≡◌, true, [], ◌∷◌, ℕ, ◌≤◌, leb, ℤ, length, Some};
ghost use Rattle.std.proofs.Math.Seq.{slice};
ghost use Rattle.formats_read.specs.Promises.Here.{Here};
ghost use Rattle.panel.specs.Calls as calls;
ghost use Rattle.replay_script.specs.Script.{clock_form};
ghost use Rattle.panel.specs.Lengths.{sized};
ghost use Rattle.replay_writing.specs.Promises.Ran.{Spans, RanAs, MessageRan};
ghost use Rattle.replay_writing.specs.Promises.Ran.{ReadsWork, within3, Fits, Sound, WritesAs};

use replay_script::Asked;

fn fresh(n: usize, lent: usize, out: usize, new: &mut [u8]) -> Option<u32>
    requires { lent ≤ length new.old }
    ensures { RanAs (leb out lent) (sized n) [] (calls.fresh out) new.new result }
{
    if lent < out {
        return None;
    }
    Some(panel_report::fresh(n, &mut new[..out]))
}

fn alert_sheet(n: usize, lent: usize, q: Asked, s: &[u8], old: &[u8], new: &mut [u8]) -> Option<u32>
    requires lent_in_bounds { lent ≤ length new.old }
    requires spans { Spans s.now q }
    ensures { RanAs (leb q.out lent) (sized n) old.now
        (calls.alert_sheet (slice q.feed.from q.feed.to s.now)
        (slice q.input.from q.input.to s.now) q.out []) new.new result }
{
    let out = q.out;
    if lent < out {
        return None;
    }
    let feed = q.feed;
    let input = q.input;
    let feed_from = feed.from;
    let feed_to = feed.to;
    let from = input.from;
    let to = input.to;
    Some(panel_sheets::alert_sheet(
        n,
        old,
        &s[feed_from..feed_to],
        &s[from..to],
        &mut new[..out],
    ))
}

fn vehicle_sheet(
    n: usize,
    lent: usize,
    q: Asked,
    s: &[u8],
    old: &[u8],
    new: &mut [u8],
) -> Option<u32>
    requires lent_in_bounds { lent ≤ length new.old }
    requires spans { Spans s.now q }
    ensures { (z : ℤ) (e : ℕ) → Here clock_form s.now q.clock e z
        → RanAs (leb q.out lent) (sized n) old.now
        (calls.vehicle_sheet (slice q.feed.from q.feed.to s.now)
        (slice q.input.from q.input.to s.now) z q.out []) new.new result }
{
    let out = q.out;
    if lent < out {
        return None;
    }
    let feed = q.feed;
    let input = q.input;
    let feed_from = feed.from;
    let feed_to = feed.to;
    let from = input.from;
    let to = input.to;
    let clock = formats_read::signed(s, q.clock);
    Some(panel_sheets::vehicle_sheet(
        n,
        old,
        &s[feed_from..feed_to],
        &s[from..to],
        clock,
        &mut new[..out],
    ))
}

// The lengths of a message's working buffers.
#[derive(Clone, Copy)]
struct MessageWork {
    keys: usize,
    marks: usize,
    order: usize,
}

fn message_work(s: &[u8], at: usize) -> MessageWork
    ensures { ReadsWork s.now at (result.keys ∷ result.marks ∷ result.order ∷ []) }
{
    MessageWork {
        keys: replay_script::length_at(s, at, 0),
        marks: replay_script::length_at(s, at, 1),
        order: replay_script::length_at(s, at, 2),
    }
}

// Whether the working buffers that a message asks for are lent.
fn is_lent(w: MessageWork, keys: usize, marks: usize, order: usize) -> bool
    ensures { result ≡ within3 w.keys w.marks w.order keys marks order }
{
    (w.keys <= keys) & ((w.marks <= marks) & (w.order <= order))
}

// A message on buffers that are lent.
fn run_message(
    n: usize,
    w: MessageWork,
    q: Asked,
    s: &[u8],
    old: &[u8],
    new: &mut [u8],
    keys: &mut [u8],
    marks: &mut [u32],
    order: &mut [u32],
) -> u32
    requires fits { Fits w.keys w.marks w.order (length keys.old) (length marks.old)
        (length order.old) q.out (length new.old) }
    requires sound { Sound n s.now q }
    ensures { RanAs true (sized n) old.now
        (calls.message (slice q.feed.from q.feed.to s.now)
        (slice q.input.from q.input.to s.now) q.out
        (w.keys ∷ w.marks ∷ w.order ∷ [])) new.new (Some result) }
{
    let out = q.out;
    let feed = q.feed;
    let input = q.input;
    let feed_from = feed.from;
    let feed_to = feed.to;
    let from = input.from;
    let to = input.to;
    let k = w.keys;
    let m = w.marks;
    let o = w.order;
    panel_message::message(
        n,
        old,
        &s[feed_from..feed_to],
        &s[from..to],
        &mut new[..out],
        &mut keys[..k],
        &mut marks[..m],
        &mut order[..o],
    )
}

fn message(
    n: usize,
    lent: usize,
    q: Asked,
    s: &[u8],
    old: &[u8],
    new: &mut [u8],
    keys: &mut [u8],
    marks: &mut [u32],
    order: &mut [u32],
) -> Option<u32>
    requires lent_in_bounds { lent ≤ length new.old }
    requires sound { Sound n s.now q }
    ensures { MessageRan (sized n) lent (length keys.old ∷ length marks.old
        ∷ length order.old ∷ []) s.now q old.now
        new.new result }
{
    let w = message_work(s, q.work);
    if is_lent(w, keys.len(), marks.len(), order.len()) & (q.out <= lent) {
        return Some(run_message(n, w, q, s, old, new, keys, marks, order));
    }
    None
}

// A CALL THAT WRITES AN OVERLAY, by its kind: into the first bytes of `new`, and on the first elements of the others.
pub fn write(
    n: usize,
    lent: usize,
    q: Asked,
    s: &[u8],
    old: &[u8],
    new: &mut [u8],
    keys: &mut [u8],
    marks: &mut [u32],
    order: &mut [u32],
) -> Option<u32>
    requires lent_in_bounds { lent ≤ length new.old }
    requires sound { Sound n s.now q }
    ensures { WritesAs (sized n) lent (length keys.old ∷ length marks.old
        ∷ length order.old ∷ []) s.now q old.now
        new.new result }
{
    let kind = q.kind;
    if kind == 0 {
        return fresh(n, lent, q.out, new);
    }
    if kind == 1 {
        return message(n, lent, q, s, old, new, keys, marks, order);
    }
    if kind == 2 {
        return alert_sheet(n, lent, q, s, old, new);
    }
    if kind == 3 {
        return vehicle_sheet(n, lent, q, s, old, new);
    }
    None
}
