// A call of a script, run on the call itself: two overlays take turns, and of each call its number is told, and of a
// card or a report its output.
#![tactic(auto)]

ghost use Rattle.std.specs.Prelude.{◌≡◌, cond, [], ◌∷◌, ◌≤◌, length, take};
ghost use Rattle.decode.specs.Sizes.{most_old};
ghost use Rattle.panel.specs.Lengths.{sized};
ghost use Rattle.replay_writing.specs.Promises.Ran.{Sound};
ghost use Rattle.replay_turn.specs.Lent.{lent_to};
ghost use Rattle.replay_turn.specs.Promises.Turns.{current, accepted_of, TellsNumber, ToldWriting, Turned};

use replay_script::Asked;

// After a call: the next place of the output; whether the new overlay is the one to go on with; the call's end.
#[derive(Drop)]
struct Step {
    place: Option<usize>,
    moved: bool,
    next: usize,
}

// The same, with whether the first of the two overlays is the one to go on with.
#[derive(Drop)]
pub struct Turn {
    pub place: Option<usize>,
    pub first: bool,
    pub next: usize,
}

fn is_accepted(r: Option<u32>) -> bool
    ensures { result ≡ accepted_of r }
{
    match r {
        None => false,
        Some(k) => k == 0,
    }
}

// The number of a writing call, at p.
fn tell(out: &mut [u8], p: usize, r: Option<u32>) -> Option<usize>
    ensures { TellsNumber out.old p out.new r result }
{
    match r {
        None => None,
        Some(k) => formats_write::byte(out, Some(p), replay_reading::octet(k)),
    }
}

fn step_writing(
    n: usize,
    lent: usize,
    q: Asked,
    s: &[u8],
    old: &[u8],
    new: &mut [u8],
    out: &mut [u8],
    p: usize,
    keys: &mut [u8],
    marks: &mut [u32],
    order: &mut [u32],
) -> Step
    requires lent_in_bounds { lent ≤ length new.old }
    requires sound { Sound n s.now q }
    ensures { ToldWriting (sized n) lent (length keys.old ∷ length marks.old
        ∷ length order.old ∷ []) s.now q old.now
        new.new out.old p out.new result.place result.moved result.next }
{
    let r = replay_writing::write(n, lent, q, s, old, new, keys, marks, order);
    Step {
        place: tell(out, p, r),
        moved: is_accepted(r),
        next: q.next,
    }
}

// A call of a script, on the overlay `old` and into `new`.
fn run_one(
    n: usize,
    lent: usize,
    s: &[u8],
    at: usize,
    old: &[u8],
    new: &mut [u8],
    out: &mut [u8],
    p: usize,
    keys: &mut [u8],
    marks: &mut [u32],
    order: &mut [u32],
) -> Step
    requires { (lent ≤ length new.old) × (n ≤ most_old) }
    ensures { Turned (sized n) (lent_to lent (length out.old) (length keys.old)
        (length marks.old) (length order.old)) s.now at
        old.now out.old p (cond result.moved (take n new.new) old.now)
        out.new result.place result.next }
{
    let q = replay_script::read(s, at);
    let kind = q.kind;
    if kind < 4 {
        return step_writing(n, lent, q, s, old, new, out, p, keys, marks, order);
    }
    if kind == 4 {
        return Step {
            place: replay_reading::card(n, q, s, old, out, p),
            moved: false,
            next: q.next,
        };
    }
    Step {
        place: replay_reading::report(n, q, s, old, out, p),
        moved: false,
        next: q.next,
    }
}

// A TURN of a replay: the call that stands at `at`, on the overlay of the two that is current.
pub fn take_turn(
    n: usize,
    lent: usize,
    s: &[u8],
    at: usize,
    first: bool,
    a: &mut [u8],
    b: &mut [u8],
    out: &mut [u8],
    p: usize,
    keys: &mut [u8],
    marks: &mut [u32],
    order: &mut [u32],
) -> Turn
    requires { (lent ≤ length a.old) × (lent ≤ length b.old) × (n ≤ lent) × (n ≤ most_old) }
    ensures { Turned (sized n) (lent_to lent (length out.old) (length keys.old)
        (length marks.old) (length order.old)) s.now at
        (current n first a.old b.old) out.old p
        (current n result.first a.new b.new) out.new result.place result.next }
{
    if first {
        let r = run_one(n, lent, s, at, &a[..n], b, out, p, keys, marks, order);
        let place = r.place;
        return Turn {
            place,
            first: !r.moved,
            next: r.next,
        };
    }
    let r = run_one(n, lent, s, at, &b[..n], a, out, p, keys, marks, order);
    let place = r.place;
    Turn {
        place,
        first: r.moved,
        next: r.next,
    }
}
