// Reading by a format: numbers, and an interpreter that passes over a value of the format that a table holds.
#![tactic(auto)]

ghost use Rattle.std.specs.Prelude.{◌≡◌, ◌+◌, ◌*◌, ◌<◌, ◌≤◌, length, get_or, drop};
ghost use Rattle.formats.specs.Readers.{bytes_r, const_r};
ghost use Rattle.formats.specs.Number.{number_r, little_r};
ghost use Rattle.formats.specs.Promises.Number.{more_r};
ghost use Rattle.formats.specs.Promises.Outcome.{numbered, skipped, skip_to, skip_many, format_at, leaf_format};
ghost use Rattle.formats.specs.Promises.Outcome.{tag_at};

// The kinds of nodes in a table.
pub mod kinds {
    pub const NEVER: u64 = 0;

    pub const EMPTY: u64 = 1;

    // bounds
    pub const NUMBER: u64 = 2;

    // bounds, as they are written
    pub const SIGNED: u64 = 3;

    // the largest
    pub const SMALL: u64 = 4;

    // limit, class
    pub const TEXT: u64 = 5;

    pub const FLOAT: u64 = 6;

    // the byte
    pub const CONSTANT: u64 = 7;

    // limit, node
    pub const LIST: u64 = 8;

    // node, node
    pub const CHOICE: u64 = 9;

    // node, node
    pub const PAIR: u64 = 10;

    // Kinds below this one have no parts.
    pub const PARTS: u64 = LIST;
}

// The bytes of a slice from `from` up to `to`.
#[derive(Clone, Copy)]
pub struct Span {
    pub from: usize,
    pub to: usize,
}

// The number whose first group says `low`, by the groups at `at` that follow it, and the place past it: each group
// counts for 128 times the one before.
fn more(s: &[u8], at: usize, low: u64) -> Option<(u64, usize)>
    requires { low < 128 }
    ensures { result ≡ numbered s.now (more_r 8 low 128 (drop at s.now)) }
{
    let mut n = low;
    let mut unit: u64 = 128;
    let mut left: u32 = 8;
    for p in at..s.len() {
        let b = u64::from(s[p]);
        if left == 0 {
            if b == 1 {
                return Some((n + unit, p + 1));
            }
            return None;
        }
        if b < 128 {
            if b == 0 {
                return None;
            }
            return Some((n + unit * b, p + 1));
        }
        n += unit * (b - 128);
        unit *= 128;
        left -= 1;
    }
    None
}

// The number at `at`, and the place past it. Most have one group: that case stands in front, and is small enough to be
// put in place.
pub fn number(s: &[u8], at: usize) -> Option<(u64, usize)>
    ensures { result ≡ numbered s.now (number_r (drop at s.now)) }
{
    let &b = s.get(at)?;
    if b < 128 {
        return Some((u64::from(b), at + 1));
    }
    more(s, at + 1, u64::from(b - 128))
}

// A number of k whole bytes at `at`, low byte first, and the place past it.
fn little(k: u32, s: &[u8], at: usize) -> Option<(u64, usize)>
    requires { (k ≤ 8) × (at ≤ length s.now) }
    ensures { result ≡ numbered s.now (little_r k (drop at s.now)) }
{
    if k == 0 {
        return Some((0, at));
    }
    let &b = s.get(at)?;
    let (h, next) = little(k - 1, s, at + 1)?;
    Some((u64::from(b) + 256 * h, next))
}

// The eight bytes of a float at `at`, as a number, and the place past them.
pub fn float(s: &[u8], at: usize) -> Option<(u64, usize)>
    ensures { result ≡ numbered s.now (little_r 8 (drop at s.now)) }
{
    if s.len() <= at {
        return None;
    }
    little(8, s, at)
}

// Past n bytes as they are.
pub fn raw(s: &[u8], at: usize, n: u64) -> Option<usize>
    requires { at ≤ length s.now }
    ensures { result ≡ skipped s.now (bytes_r n (drop at s.now)) }
{
    let left = s.len() - at;
    let m = n as usize;
    if m <= left { Some(at + m) } else { None }
}

// Past one given byte.
pub fn given(s: &[u8], at: usize, c: u64) -> Option<usize>
    ensures { result ≡ skipped s.now (const_r c (drop at s.now)) }
{
    let &b = s.get(at)?;
    if u64::from(b) == c {
        Some(at + 1)
    } else {
        None
    }
}

// word j of a node of a table, 0 past its end
pub fn word(t: &[u64], node: u64, j: usize) -> u64
    requires { j < 4 }
    ensures { result ≡ get_or t.now (4 * node + j) 0 }
{
    let here = node as usize;
    if t.len() <= here {
        return 0;
    }
    t.get(4 * here + j).copied().unwrap_or(0)
}

// the byte at `at`, 2 past the end
pub fn tag(s: &[u8], at: usize) -> u64
    ensures { result ≡ tag_at s.now at }
{
    s.get(at).map_or(2, |&b| u64::from(b))
}

// Past the value at `at` of a format that has no parts.
fn leaf(kind: u64, a: u64, s: &[u8], at: usize) -> Option<usize>
    requires { (kind < 8) × (at ≤ length s.now) }
    ensures { result ≡ skip_to (leaf_format kind a 0) s.now at }
{
    match kind {
        kinds::NEVER => None,
        kinds::EMPTY => Some(at),
        kinds::FLOAT => {
            let (_, p) = float(s, at)?;
            Some(p)
        }
        kinds::CONSTANT => given(s, at, a),
        _ => {
            let (n, p) = number(s, at)?;
            match kind {
                kinds::SMALL if a < n => None,
                kinds::TEXT => raw(s, p, n),
                _ => Some(p),
            }
        }
    }
}

// Past the value at `at` of the format that the table has at `node`, `depth` levels deep at most.
#[cycle(pass_pass_many)]
pub fn pass(t: &[u64], depth: u32, node: u64, s: &[u8], at: usize) -> Option<usize>
    requires { at ≤ length s.now }
    ensures { result ≡ skip_to (format_at depth t.now node) s.now at }
{
    if depth == 0 {
        return None;
    }
    let d = depth - 1;
    let kind = word(t, node, 0);
    let a = word(t, node, 1);
    let b = word(t, node, 2);
    match kind {
        0..kinds::PARTS => leaf(kind, a, s, at),
        kinds::LIST => {
            let (n, p) = number(s, at)?;
            if s.len() - p < n as usize {
                return None;
            }
            pass_many(t, d, b, n, s, p)
        }
        kinds::CHOICE => match tag(s, at) {
            0 => pass(t, d, a, s, at + 1),
            1 => pass(t, d, b, s, at + 1),
            _ => None,
        },
        kinds::PAIR => {
            let p = pass(t, d, a, s, at)?;
            pass(t, d, b, s, p)
        }
        _ => None,
    }
}

// Past n values of one format, each of a byte or more.
#[cycle(pass_pass_many)]
fn pass_many(t: &[u64], depth: u32, node: u64, n: u64, s: &[u8], at: usize) -> Option<usize>
    requires { at ≤ length s.now }
    ensures { result ≡ skip_many (format_at depth t.now node) n s.now at }
{
    let mut p = at;
    for _ in 0..n {
        let q = pass(t, depth, node, s, p)?;
        if q <= p {
            return None;
        }
        p = q;
    }
    Some(p)
}
