// Whether an alert applies, by what is known of its texts and does not go by the leg: found once, and kept in four
// words for each alert. They are the alert's place; 1 where it is not about road traffic, 2 where it is; 1 where the
// lines that it names are known; and these, a bit for each.
ghost use Rattle.std.specs.Prelude.{◌+◌, ◌*◌, ◌≤◌, length};
ghost use Rattle.alerts_apply.specs.Promises.Known.{Begun, DecidedKnown, AppliedKnown};

use crate::applies::{decide, decide_new};
use crate::hits::{Hit, hit_by};

// The words from i on become those of the alert at `at`: another's are forgotten.
fn begin(known: &mut [u32], i: usize, at: u32)
    requires { i + 4 ≤ length known.old }
    ensures { Begun i at known.old known.new }
{
    if known[i] == at {
        return;
    }
    known[i] = at;
    known[i + 1] = 0;
    known[i + 2] = 0;
}

// Alert k's words are where its texts are known; where there are none, nothing is known.
fn decide_known(
    text: &mut [u8],
    known: &mut [u32],
    k: usize,
    s: &[u8],
    at: usize,
    short: &[u8],
    mode: &[u8],
    h: Hit,
) -> bool
    ensures { DecidedKnown s.now at short.now mode.now h result text.old
        text.new known.old known.new }
{
    if 4294967295 < at {
        return decide_new(text, s, at, short, mode, h);
    }
    if known.len() / 4 <= k {
        return decide_new(text, s, at, short, mode, h);
    }
    let i = 4 * k;
    begin(known, i, at as u32);
    let a = i + 1;
    let e = i + 4;
    decide(text, &mut known[a..e], s, at, short, mode, h)
}

// `text` is what the alert's texts are written into; `known`, zeros at first, what is known of alerts. The answer is
// one for every k: k says where the alert's words are.
pub fn applies_known(
    text: &mut [u8],
    known: &mut [u32],
    k: usize,
    s: &[u8],
    at: usize,
    trip: &[u8],
    route: &[u8],
    short: &[u8],
    from: &[u8],
    to: &[u8],
    mode: &[u8],
) -> bool
    ensures { AppliedKnown trip.now route.now short.now from.now
        to.now mode.now s.now at result text.old text.new
        known.old known.new }
{
    let name = alerts_ids::trimmed(short);
    let h = hit_by(s, at, trip, route, name, from, to);
    decide_known(text, known, k, s, at, name, mode, h)
}
