// Calls of the tests on an alert for a C host: differential/port compares them with the original, bench/run measures
// them beside it. They ask nothing of their caller.
#![tactic(auto)]

use alerts_apply::known::applies_known;
use formats::Span;

mod table;

ghost use Rattle.std.specs.Prelude.{◌≡◌, ◌+◌, ltb, length};
ghost use Rattle.formats.specs.Format.{read};
ghost use Rattle.formats_judge.specs.Judged.{judge_to};
ghost use Rattle.alerts.specs.Alert.{alert};
ghost use Rattle.alerts_apply.specs.Promises.Hits.{Applied};
ghost use Rattle.alerts_probes.specs.Probes.{texts_fit, is_fine, applies_to, LabelShown, LineShown};

use table::{ALERT, ALERT_DEPTH, AN_ALERT};

fn roomy(n: usize, h: usize, d: usize, s: usize) -> bool
    ensures { result ≡ ltb (h + d + s) n }
{
    if n <= h {
        return false;
    }
    let left = n - h;
    if left <= d {
        return false;
    }
    if left - d <= s {
        return false;
    }
    true
}

// Whether the texts may be about the line; `out` is what they are folded into.
#[unsafe(no_mangle)]
pub extern "C" fn alerts_text_fits(
    out: &mut [u8],
    header: &[u8],
    description: &[u8],
    short: &[u8],
) -> bool
    ensures { result ≡ texts_fit (length out.old) header.now description.now
        short.now }
{
    let space = alerts_patterns::next(short, 0, b' ');
    if space < short.len() {
        return false;
    }
    if !roomy(out.len(), header.len(), description.len(), short.len()) {
        return false;
    }
    alerts_text::blob::text_fits(out, header, description, short)
}

// An alert's end, and the first of the questions 5 to 7 that it fails.
fn judge_alert(s: &[u8]) -> Option<(usize, u32)>
    ensures { result ≡ judge_to alert s.now 0 }
{
    formats_judge::judge_value(&ALERT, ALERT_DEPTH, AN_ALERT, s, 0)
}

// Whether an alert within its limits stands in front.
fn stands(s: &[u8]) -> bool
    ensures { result ≡ is_fine (read alert s.now) }
{
    let Some((_, n)) = judge_alert(s) else {
        return false;
    };
    n == 0
}

// Whether the alert in front applies to the leg. It is asked twice, so that what is known of its texts answers.
fn applies_twice(
    text: &mut [u8],
    s: &[u8],
    trip: &[u8],
    route: &[u8],
    short: &[u8],
    from: &[u8],
    to: &[u8],
    mode: &[u8],
) -> bool
    ensures { Applied trip.now route.now short.now from.now
        to.now mode.now s.now 0 result text.old text.new }
{
    let mut known = [0u32; 4];
    applies_known(
        text, &mut known, 0, s, 0, trip, route, short, from, to, mode,
    );
    applies_known(
        text, &mut known, 0, s, 0, trip, route, short, from, to, mode,
    )
}

// Whether the alert in front of s applies to the leg: 1 yes, 0 no; 2 where none within its limits stands there; 3 where
// `text`, which its texts are written into, has fewer than 2,626 bytes, or the short name more than 64.
#[unsafe(no_mangle)]
pub extern "C" fn alerts_applies(
    text: &mut [u8],
    s: &[u8],
    trip: &[u8],
    route: &[u8],
    short: &[u8],
    from: &[u8],
    to: &[u8],
    mode: &[u8],
) -> u32
    ensures { result ≡ applies_to (length text.old) s.now trip.now
        route.now short.now from.now to.now mode.now }
{
    if text.len() < 2626 {
        return 3;
    }
    if 64 < short.len() {
        return 3;
    }
    if !stands(s) {
        return 2;
    }
    if applies_twice(text, s, trip, route, short, from, to, mode) {
        return 1;
    }
    0
}

// Where a label stands, by its first byte and the one past its last.
#[repr(C)]
#[derive(Drop)]
pub struct Label {
    pub from: usize,
    pub to: usize,
}

// The label of the alert in front of s; an empty part where none within its limits stands there.
#[unsafe(no_mangle)]
pub extern "C" fn alerts_label(s: &[u8]) -> Label
    ensures { LabelShown s.now result.from result.to }
{
    if !stands(s) {
        return Label { from: 0, to: 0 };
    }
    let l: Span = alerts_apply::texts::label(s, 0);
    Label {
        from: l.from,
        to: l.to,
    }
}

// The name of a product code's line: how many bytes of `out` it takes, 0 where there is none; 4 where `out` has fewer
// than three. No card asks for it.
#[unsafe(no_mangle)]
pub extern "C" fn alerts_line(out: &mut [u8], code: &[u8]) -> usize
    ensures { LineShown code.now result out.old out.new }
{
    if out.len() < 3 {
        return 4;
    }
    let Some(n) = alerts_ids::products::idfm_product_to_short(code, out) else {
        return 0;
    };
    n
}
