// A script of calls, replayed on the calls themselves: from a fresh overlay on, one call after the other.
#![tactic(auto)]

ghost use Rattle.std.specs.Prelude.{◌≡◌, true, ◌≤◌, min, length, take};
ghost use Rattle.decode.specs.Sizes.{most_old};
ghost use Rattle.panel.specs.Calls.{fresh_overlay};
ghost use Rattle.panel.specs.Lengths.{sized};
ghost use Rattle.replay_turn.specs.Lent.{lent_to};
ghost use Rattle.replay_calls.specs.Replay.{ReplayHolds};
ghost use Rattle.replay_calls.specs.Promises.Turns.{Overlays, TurnsEnd, ScriptEnds};

use panel_output::Ending;

// The turns of `count` calls, of which the first stands at `start`: the place behind what they told.
fn take_turns(
    n: usize,
    lent: usize,
    s: &[u8],
    count: u64,
    start: usize,
    a: &mut [u8],
    b: &mut [u8],
    out: &mut [u8],
    keys: &mut [u8],
    marks: &mut [u32],
    order: &mut [u32],
) -> Option<usize>
    requires overlays { Overlays n lent a.old b.old }
    requires a_value { take n a.old ≡ fresh_overlay (sized n) }
    ensures { TurnsEnd (sized n) (lent_to lent (length out.old) (length keys.old)
        (length marks.old) (length order.old)) s.now
        count start out.new result }
{
    let mut left = count;
    let mut at = start;
    let mut p: usize = 0;
    let mut first = true;
    while 0 < left {
        let r = replay_turn::take_turn(n, lent, s, at, first, a, b, out, p, keys, marks, order);
        let place = r.place;
        let Some(q) = place else {
            return None;
        };
        p = q;
        at = r.next;
        first = r.first;
        left -= 1;
    }
    Some(p)
}

// A fresh overlay in the first n bytes.
fn begin(n: usize, a: &mut [u8])
    requires { n ≤ length a.old }
    ensures { take n a.new ≡ fresh_overlay (sized n) }
{
    panel_report::fresh(n, &mut a[..n]);
}

// The calls of a script, one after the other.
fn run_script(
    n: usize,
    lent: usize,
    s: &[u8],
    a: &mut [u8],
    b: &mut [u8],
    out: &mut [u8],
    keys: &mut [u8],
    marks: &mut [u32],
    order: &mut [u32],
) -> Ending
    requires { (lent ≤ length a.old) × (lent ≤ length b.old) × (n ≤ most_old) }
    ensures { ScriptEnds (sized n) (lent_to lent (length out.old) (length keys.old)
        (length marks.old) (length order.old)) s.now
        out.new result }
{
    if lent < n {
        return Ending::Refused(1);
    }
    let Some((count, start)) = replay_script::calls(s) else {
        return Ending::Refused(1);
    };
    begin(n, a);
    let w = take_turns(n, lent, s, count, start, a, b, out, keys, marks, order);
    panel_output::ended(w, 1)
}

fn smaller(x: usize, y: usize) -> usize
    ensures { result ≡ min x y }
{
    if x <= y {
        return x;
    }
    y
}

// A REPLAY of a script over overlays of n bytes.
pub fn replay(
    n: usize,
    s: &[u8],
    a: &mut [u8],
    b: &mut [u8],
    out: &mut [u8],
    keys: &mut [u8],
    marks: &mut [u32],
    order: &mut [u32],
) -> u32
    requires { n ≤ most_old }
    ensures { ReplayHolds (sized n) (lent_to (min (length a.old) (length b.old))
        (length out.old) (length keys.old) (length marks.old)
        (length order.old)) s.now result out.new }
{
    let lent = smaller(a.len(), b.len());
    let e = run_script(n, lent, s, a, b, out, keys, marks, order);
    panel_output::finish(out, e)
}
