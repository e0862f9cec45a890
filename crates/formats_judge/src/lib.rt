// Document 01's questions 5, 6 and 7, put to a value of the format that a table holds, in one pass over it.
#![tactic(auto)]

ghost use Rattle.std.specs.Prelude.{◌≡◌, ◌&&◌, ◌<◌, ◌≤◌, length, drop, leb};
ghost use Rattle.formats.specs.Number.{zag};
ghost use Rattle.formats.specs.Readers.{bytes_r};
ghost use Rattle.formats.specs.Promises.Outcome.{class_of, format_at, leaf_format};
ghost use Rattle.formats_judge.specs.Judged.{at_most, answer, judged, judge_to};
ghost use Rattle.formats_judge.specs.Promises.Judged.{text_answer, sooner, judge_many, judged_after};

use formats::kinds;

fn sooner(x: u32, y: u32) -> u32
    ensures { result ≡ sooner x y }
{
    match (x, y) {
        (0, _) => y,
        (_, 0) => x,
        _ => x.min(y),
    }
}

fn range(lo: u64, hi: u64, n: u64) -> u32
    ensures { result ≡ answer 6 (leb lo n && leb n hi) }
{
    if (lo..=hi).contains(&n) { 0 } else { 6 }
}

// The order of the signed numbers that m and n stand for: 2z, or -2z-1 below zero.
fn at_most(m: u64, n: u64) -> bool
    ensures { result ≡ at_most (zag m) (zag n) }
{
    match (m % 2, n % 2) {
        (0, 0) => m <= n,
        (0, _) => false,
        (_, 0) => true,
        _ => n <= m,
    }
}

fn signed_range(lo: u64, hi: u64, n: u64) -> u32
    ensures { result ≡ answer 6 (at_most (zag lo) (zag n) && at_most (zag n) (zag hi)) }
{
    if at_most(lo, n) && at_most(n, hi) {
        0
    } else {
        6
    }
}

fn count(limit: u64, n: u64) -> u32
    ensures { result ≡ answer 7 (leb n limit) }
{
    if n <= limit { 0 } else { 7 }
}

// A text, whatever its limit.
pub fn text(limit: u64, c: u64, v: &[u8]) -> u32
    ensures { result ≡ text_answer limit (class_of c) v.now }
{
    if v.len() as u64 <= limit && formats_text::in_class(c, v) {
        return 0;
    }
    5
}

// Past n bytes at `at`, judged as a text.
fn bytes(limit: u64, c: u64, s: &[u8], at: usize, n: u64) -> Option<(usize, u32)>
    requires { at ≤ length s.now }
    ensures { result ≡ judged (text_answer limit (class_of c)) s.now
        (bytes_r n (drop at s.now)) }
{
    let left = s.len() - at;
    let m = n as usize;
    if left < m {
        return None;
    }
    let end = at + m;
    Some((end, text(limit, c, &s[at..end])))
}

// Past the value at `at` of a format that has no parts.
fn leaf(kind: u64, a: u64, b: u64, s: &[u8], at: usize) -> Option<(usize, u32)>
    requires { (kind < 8) × (at ≤ length s.now) }
    ensures { result ≡ judge_to (leaf_format kind a b) s.now at }
{
    match kind {
        kinds::NEVER => None,
        kinds::EMPTY => Some((at, 0)),
        kinds::FLOAT => {
            let (_, q) = formats::float(s, at)?;
            Some((q, 0))
        }
        kinds::CONSTANT => {
            let q = formats::given(s, at, a)?;
            Some((q, 0))
        }
        _ => {
            let (n, p) = formats::number(s, at)?;
            match kind {
                kinds::NUMBER => Some((p, range(a, b, n))),
                kinds::SIGNED => Some((p, signed_range(a, b, n))),
                kinds::SMALL if a < n => None,
                kinds::SMALL => Some((p, 0)),
                _ => bytes(a, b, s, p, n),
            }
        }
    }
}

// Past the value at `at` of the format that the table has at `node`, `depth` levels deep at most.
#[cycle(judge_many_judge_value)]
pub fn judge_value(t: &[u64], depth: u32, node: u64, s: &[u8], at: usize) -> Option<(usize, u32)>
    requires { at ≤ length s.now }
    ensures { result ≡ judge_to (format_at depth t.now node) s.now at }
{
    if depth == 0 {
        return None;
    }
    let d = depth - 1;
    let kind = formats::word(t, node, 0);
    let a = formats::word(t, node, 1);
    let b = formats::word(t, node, 2);
    match kind {
        0..kinds::PARTS => leaf(kind, a, b, s, at),
        kinds::LIST => {
            let (n, p) = formats::number(s, at)?;
            if s.len() - p < n as usize {
                return None;
            }
            judge_many(t, d, b, n, s, p, count(a, n))
        }
        kinds::CHOICE => match formats::tag(s, at) {
            0 => judge_value(t, d, a, s, at + 1),
            1 => judge_value(t, d, b, s, at + 1),
            _ => None,
        },
        kinds::PAIR => {
            let (p, x) = judge_value(t, d, a, s, at)?;
            let (q, y) = judge_value(t, d, b, s, p)?;
            Some((q, sooner(x, y)))
        }
        _ => None,
    }
}

// Past n values of one format, each of a byte or more, after a verdict.
#[cycle(judge_many_judge_value)]
fn judge_many(
    t: &[u64],
    depth: u32,
    node: u64,
    n: u64,
    s: &[u8],
    at: usize,
    x: u32,
) -> Option<(usize, u32)>
    requires { at ≤ length s.now }
    ensures { result ≡ judged_after x (judge_many (format_at depth t.now node) n s.now at) }
{
    let mut p = at;
    let mut found = x;
    for _ in 0..n {
        let (q, y) = judge_value(t, depth, node, s, p)?;
        if q <= p {
            return None;
        }
        p = q;
        found = sooner(found, y);
    }
    Some((p, found))
}
