// Whether a key is one of the trip record behind it. No key is built: its pieces are compared where they stand.
#![tactic(auto)]

ghost use Rattle.std.specs.Prelude.{[], ◌∷◌};
ghost use Rattle.decode.specs.Key.{decimal_of};
ghost use Rattle.overlay_keys.specs.Promises.Piece.{Inside, Piece};
ghost use Rattle.overlay_keys.specs.Promises.Keys.{Direction, Route, Head, Tail, Matches};
ghost use Rattle.overlay_keys.specs.Promises.Keys.{Incomplete, Dated, Longer, Keys};

use formats_check::{at_most, number_at, printable_at};
use overlay_trip::optional_word;

fn byte(x: u64, old: &[u8], at: usize, e: usize) -> Option<usize>
    requires { Inside old.now at e }
    ensures { Piece (x ∷ []) old.now at e result }
{
    if e <= at {
        return None;
    }
    if u64::from(old[at]) == x {
        return Some(at + 1);
    }
    None
}

fn piece(x: &[u8], old: &[u8], at: usize, e: usize) -> Option<usize>
    requires { Inside old.now at e }
    ensures { Piece x.now old.now at e result }
{
    if e - at < x.len() {
        return None;
    }
    let m = at + x.len();
    if slices::same(&old[at..m], x) {
        return Some(m);
    }
    None
}

// n in decimal, at most k digits.
fn decimal(k: u32, n: u64, old: &[u8], at: usize, e: usize) -> Option<usize>
    requires { Inside old.now at e }
    ensures { Piece (decimal_of k n) old.now at e result }
{
    if k == 0 {
        return Some(at);
    }
    if n < 10 {
        return byte(48 + n, old, at, e);
    }
    let m = decimal(k - 1, n / 10, old, at, e)?;
    byte(48 + n % 10, old, m, e)
}

// The direction that a record has at y.
fn direction(old: &[u8], y: usize, at: usize, e: usize) -> Option<usize>
    requires { Inside old.now at e }
    ensures { Direction old.now y at e result }
{
    let c = *old.get(y)?;
    if c == 0 {
        return Some(at);
    }
    let (n, p) = number_at(old, y + 1)?;
    decimal(10, n, old, at, e)
}

// feed:route, the route from x up to y, or nothing.
fn route(feed: &[u8], old: &[u8], x: usize, y: usize, at: usize, e: usize) -> Option<usize>
    requires inside { Inside old.now x y }
    requires inside_2 { Inside old.now at e }
    ensures { Route feed.now old.now x y at e result }
{
    if x == y {
        return Some(at);
    }
    let p = piece(feed, old, at, e)?;
    let q = byte(58, old, p, e)?;
    piece(&old[x..y], old, q, e)
}

fn head(feed: &[u8], old: &[u8], x: usize, y: usize, at: usize, e: usize) -> Option<usize>
    requires inside { Inside old.now x y }
    requires inside_2 { Inside old.now at e }
    ensures { Head feed.now old.now x y at e result }
{
    let p = piece(b"#r=", old, at, e)?;
    let q = route(feed, old, x, y, p, e)?;
    let u = piece(b"&d=", old, q, e)?;
    direction(old, y, u, e)
}

fn tail(old: &[u8], b: usize, d: usize, u: usize, v: usize, at: usize, e: usize) -> Option<usize>
    requires inside { Inside old.now b d }
    requires inside_2 { Inside old.now u v }
    requires inside_3 { Inside old.now at e }
    ensures { Tail old.now b d u v at e result }
{
    let p = piece(b"&sd=", old, at, e)?;
    let q = piece(&old[b..d], old, p, e)?;
    let w = piece(b"&st=", old, q, e)?;
    piece(&old[u..v], old, w, e)
}

// Head and tail, up to e.
fn matches(
    feed: &[u8],
    old: &[u8],
    a: usize,
    e: usize,
    b: usize,
    d: usize,
    x: usize,
    y: usize,
    u: usize,
    v: usize,
) -> bool
    requires inside { Inside old.now a e }
    requires inside_2 { Inside old.now b d }
    requires inside_3 { Inside old.now x y }
    requires inside_4 { Inside old.now u v }
    ensures { Matches feed.now old.now a e b d x y u v result }
{
    let Some(p) = head(feed, old, x, y, a, e) else {
        return false;
    };
    let Some(q) = tail(old, b, d, u, v, p, e) else {
        return false;
    };
    q == e
}

// The incomplete key: what is left of the record stands behind its date.
fn incomplete(feed: &[u8], old: &[u8], a: usize, e: usize, b: usize, d: usize) -> bool
    requires inside { Inside old.now a e }
    requires inside_2 { Inside old.now b d }
    ensures { Incomplete feed.now old.now a e b d result }
{
    let Some((x, y)) = printable_at(64, old, d) else {
        return false;
    };
    let Some(z) = optional_word(old, y) else {
        return false;
    };
    let Some((u, v)) = printable_at(16, old, z) else {
        return false;
    };
    matches(feed, old, a, e, b, d, x, y, u, v)
}

// A raw id, '@' and the date from b up to d.
fn dated(old: &[u8], a: usize, e: usize, b: usize, d: usize) -> bool
    requires inside { Inside old.now a e }
    requires inside_2 { Inside old.now b d }
    ensures { Dated old.now a e b d result }
{
    let m = d - b;
    if m == 0 {
        return false;
    }
    let n = e - a;
    if n < m + 2 {
        return false;
    }
    if m + 65 < n {
        return false;
    }
    let p = e - m - 1;
    let Some(q) = byte(64, old, p, e) else {
        return false;
    };
    let Some(z) = piece(&old[b..d], old, q, e) else {
        return false;
    };
    z == e
}

fn longer(feed: &[u8], old: &[u8], a: usize, e: usize) -> bool
    requires { Inside old.now a e }
    ensures { Longer feed.now old.now a e result }
{
    let Some(p) = optional_word(old, e) else {
        return false;
    };
    let Some(q) = at_most(1, old, p) else {
        return false;
    };
    let Some((b, d)) = printable_at(16, old, q) else {
        return false;
    };
    if dated(old, a, e, b, d) {
        return true;
    }
    incomplete(feed, old, a, e, b, d)
}

// Whether the key from a up to e is one of the record that stands at e. A printable key of 1 to 64 bytes is a raw id:
// no byte is read.
pub fn key_ok(feed: &[u8], old: &[u8], a: usize, e: usize) -> bool
    requires { Inside old.now a e }
    ensures { Keys feed.now old.now a e result }
{
    let n = e - a;
    if n == 0 {
        return longer(feed, old, a, e);
    }
    if 64 < n {
        return longer(feed, old, a, e);
    }
    true
}
