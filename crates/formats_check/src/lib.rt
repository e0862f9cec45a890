// Checked reading: each function asks in one walk whether a good value of a format stands at a place, and answers the
// place past it.
#![tactic(auto)]

ghost use Rattle.std.specs.Prelude.{◌≡◌, ◌+◌, ◌-◌, ◌≤◌, length, take, drop};
ghost use Rattle.formats.specs.Class.{any, printable};
ghost use Rattle.formats.specs.Format.{small, text, float, list, optional};
ghost use Rattle.formats.specs.Promises.Outcome.{class_of};
ghost use Rattle.formats_check.specs.Promises.Checked.{Number, IfGot, Fine};
ghost use Rattle.formats_check.specs.Laws.Climbing.{Spans, known, follows};
ghost use Rattle.formats_check.specs.Laws.Walks.{Each};

// The class of printable texts, by the number that a table has for it.
const PRINTABLE: u64 = 1;

// A number at `at`, as a call: the compiler leaves it one, since more than one function makes it.
pub fn number_long(s: &[u8], at: usize) -> Option<(u64, usize)>
    ensures { Number s.now at result }
{
    formats::number(s, at)
}

// The same. Most have one group: that case stands in front, and is small enough to be put in place.
pub fn number_at(s: &[u8], at: usize) -> Option<(u64, usize)>
    ensures { Number s.now at result }
{
    let &b = s.get(at)?;
    if b < 128 {
        return Some((u64::from(b), at + 1));
    }
    number_long(s, at)
}

// The number of five groups at `at`, and the place past it; `None` where another stands there.
fn five(s: &[u8], at: usize) -> Option<(u64, usize)>
    requires { at + 5 ≤ length s.now }
    ensures { IfGot s.now at result }
{
    let a = u64::from(s[at]);
    let b = u64::from(s[at + 1]);
    let c = u64::from(s[at + 2]);
    let d = u64::from(s[at + 3]);
    let e = u64::from(s[at + 4]);
    if a < 128 || b < 128 || c < 128 || d < 128 || 128 <= e || e == 0 {
        return None;
    }
    let n = a - 128 + 128 * (b - 128) + 16384 * (c - 128) + 2097152 * (d - 128) + 268435456 * e;
    Some((n, at + 5))
}

// A number at `at`. Most instants have five groups: that case stands in front.
pub fn number_five(s: &[u8], at: usize) -> Option<(u64, usize)>
    ensures { Number s.now at result }
{
    if s.len() < 5 || s.len() - 5 < at {
        return number_at(s, at);
    }
    // Not `or_else`: its proof does not close.
    match five(s, at) {
        Some(found) => Some(found),
        None => number_at(s, at),
    }
}

// A text of any bytes, at most `limit` of them, and where they stand.
fn bytes_at(limit: u64, s: &[u8], at: usize) -> Option<(usize, usize)>
    ensures { Spans limit any s.now at result }
{
    let (n, p) = number_at(s, at)?;
    if limit < n {
        return None;
    }
    let left = s.len() - p;
    let m = n as usize;
    if left < m {
        return None;
    }
    Some((p, p + m))
}

// A text of a class, by the number that a table has for it, and where its bytes stand.
pub fn text_at(class: u64, limit: u64, s: &[u8], at: usize) -> Option<(usize, usize)>
    ensures { Spans limit (class_of class) s.now at result }
{
    let (a, e) = bytes_at(limit, s, at)?;
    if formats_text::in_class(class, &s[a..e]) {
        Some((a, e))
    } else {
        None
    }
}

pub fn printable_at(limit: u64, s: &[u8], at: usize) -> Option<(usize, usize)>
    ensures { Spans limit printable s.now at result }
{
    text_at(PRINTABLE, limit, s, at)
}

pub fn text(class: u64, limit: u64, s: &[u8], at: usize) -> Option<usize>
    ensures { Fine (text limit (class_of class)) s.now at result }
{
    let (_, e) = text_at(class, limit, s, at)?;
    Some(e)
}

pub fn printable(limit: u64, s: &[u8], at: usize) -> Option<usize>
    ensures { Fine (text limit printable) s.now at result }
{
    text(PRINTABLE, limit, s, at)
}

pub fn optional_text(class: u64, limit: u64, s: &[u8], at: usize) -> Option<usize>
    ensures { Fine (optional (text limit (class_of class))) s.now at result }
{
    match s.get(at)? {
        0 => Some(at + 1),
        1 => text(class, limit, s, at + 1),
        _ => None,
    }
}

pub fn optional_printable(limit: u64, s: &[u8], at: usize) -> Option<usize>
    ensures { Fine (optional (text limit printable)) s.now at result }
{
    optional_text(PRINTABLE, limit, s, at)
}

// A small number, at most `limit`.
pub fn at_most(limit: u64, s: &[u8], at: usize) -> Option<usize>
    ensures { Fine (small limit) s.now at result }
{
    let (n, p) = number_at(s, at)?;
    if n <= limit { Some(p) } else { None }
}

// Whether the key from a to e may follow the one from b to d.
pub fn follows(first: bool, s: &[u8], b: usize, d: usize, a: usize, e: usize) -> bool
    requires { (b ≤ d) × (d ≤ length s.now) × (a ≤ e) × (e ≤ length s.now) }
    ensures { result ≡ follows (known first s.now b d) (take (e - a) (drop a s.now)) }
{
    first || slices::compare(&s[b..d], &s[a..e]).is_lt()
}

// n texts of printable bytes one after another.
fn printables_from(n: u64, limit: u64, s: &[u8], at: usize) -> Option<usize>
    requires { at ≤ length s.now }
    ensures { Each (text limit printable) n s.now at result }
{
    let mut p = at;
    for _ in 0..n {
        p = printable(limit, s, p)?;
    }
    Some(p)
}

// A list of at most `most` of them.
pub fn printables(most: u64, limit: u64, s: &[u8], at: usize) -> Option<usize>
    ensures { Fine (list most (text limit printable)) s.now at result }
{
    let (n, p) = number_at(s, at)?;
    if most < n {
        return None;
    }
    printables_from(n, limit, s, p)
}

pub fn float(s: &[u8], at: usize) -> Option<usize>
    ensures { Fine float s.now at result }
{
    let (_, p) = formats::float(s, at)?;
    Some(p)
}
