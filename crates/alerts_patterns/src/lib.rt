// Texts searched for patterns: one that is lent in three parts, what stands before a name, the name, what stands after
// it; and a table of them.
#![tactic(auto)]

ghost use Rattle.std.specs.Prelude.{◌≡◌, ◌&&◌, ◌||◌, ◌++◌, ◌+◌, ◌≤◌, ◌<◌, eqb, length, drop};
ghost use Rattle.alerts.specs.Text.{begins, contains, find};
ghost use Rattle.alerts_patterns.specs.Promises.Occurrence.{found_of, Skips, SkipsName, Seeks, SeeksTo, between};
ghost use Rattle.alerts_patterns.specs.Promises.Occurrence.{any_pair};
ghost use Rattle.alerts_patterns.specs.Promises.Tables.{up_to, name_filled, any_in, any_at};

// Whether p stands in s at i, which may lie past its end: so two places by hand, and no part of s at i.
pub fn begins_at(s: &[u8], i: usize, p: &[u8]) -> bool
    ensures { result ≡ begins p.now (drop i s.now) }
{
    let mut j = 0;
    let mut k = i;
    while j < p.len() {
        if s.len() <= k {
            return false;
        }
        if s[k] != p[j] {
            return false;
        }
        j += 1;
        k += 1;
    }
    true
}

// Whether the three parts stand in s at i, one after the other.
pub fn around_at(s: &[u8], i: usize, before: &[u8], name: &[u8], after: &[u8]) -> bool
    ensures { result ≡ begins (before.now ++ name.now ++ after.now)
        (drop i s.now) }
{
    if !begins_at(s, i, before) {
        return false;
    }
    let j = i + before.len();
    if !begins_at(s, j, name) {
        return false;
    }
    let k = j + name.len();
    begins_at(s, k, after)
}

// The first place of b in s from i on, or the end.
pub fn next(s: &[u8], i: usize, b: u8) -> usize
    ensures { result ≡ i + up_to b (drop i s.now) }
{
    let mut k = i;
    while k < s.len() {
        if s[k] == b {
            return k;
        }
        k += 1;
    }
    k
}

// How far x is from a.
fn apart(x: u8, a: u8) -> u8
    ensures { eqb result 0 ≡ eqb x a }
{
    if x < a { a - x } else { x - a }
}

// How far x is from the bytes from lo to hi.
fn outside(x: u8, lo: u8, hi: u8) -> u8
    ensures { eqb result 0 ≡ between lo hi x }
{
    if x < lo {
        return lo - x;
    }
    if hi < x { x - hi } else { 0 }
}

fn greater(x: u8, y: u8) -> u8
    ensures { eqb result 0 ≡ eqb x 0 && eqb y 0 }
{
    if x < y { y } else { x }
}

fn lesser(x: u8, y: u8) -> u8
    ensures { eqb result 0 ≡ eqb x 0 || eqb y 0 }
{
    if y < x { y } else { x }
}

// How far x is from a or y from the bytes from lo to hi.
fn pair_apart(x: u8, y: u8, a: u8, lo: u8, hi: u8) -> u8
    ensures { eqb result 0 ≡ eqb x a && between lo hi y }
{
    greater(apart(x, a), outside(y, lo, hi))
}

// Whether x has a and y a byte from lo to hi at one place. No branch inside, and no early stop: the compiler makes
// wide instructions of it.
fn pair_in(x: &[u8], y: &[u8], a: u8, lo: u8, hi: u8) -> bool
    requires { length x.now ≡ length y.now }
    ensures { result ≡ any_pair a lo hi x.now y.now }
{
    let mut least: u8 = 255;
    let mut k = 0;
    while k < x.len() {
        let far = pair_apart(x[k], y[k], a, lo, hi);
        least = lesser(least, far);
        k += 1;
    }
    least == 0
}

// A place from i on before which no a stands with a byte from lo to hi at d bytes on: byte by byte, up to e.
fn pair_from(s: &[u8], i: usize, e: usize, a: u8, d: usize, lo: u8, hi: u8) -> usize
    requires { (i ≤ e) × (e + d ≤ length s.now) }
    ensures { SeeksTo a d lo hi s.now i e result }
{
    let mut k = i;
    while k < e {
        let j = k + d;
        if pair_apart(s[k], s[j], a, lo, hi) == 0 {
            return k;
        }
        k += 1;
    }
    k
}

// The same: 64 places at a time.
fn pair_far(s: &[u8], i: usize, e: usize, a: u8, d: usize, lo: u8, hi: u8) -> usize
    requires { (i ≤ e) × (e + d ≤ length s.now) }
    ensures { Seeks a d lo hi s.now i result }
{
    let mut k = i;
    while 64 <= e - k {
        let j = k + d;
        let past = k + 64;
        let end = j + 64;
        if pair_in(&s[k..past], &s[j..end], a, lo, hi) {
            return pair_from(s, k, e, a, d, lo, hi);
        }
        k = past;
    }
    pair_from(s, k, e, a, d, lo, hi)
}

// A place from i on before which no a stands with a byte from lo to hi at d bytes on.
fn seek(s: &[u8], i: usize, a: u8, d: usize, lo: u8, hi: u8) -> usize
    requires { i ≤ length s.now }
    ensures { Seeks a d lo hi s.now i result }
{
    if s.len() - i <= d {
        return s.len();
    }
    let e = s.len() - d;
    if e - i <= 16 {
        return pair_from(s, i, e, a, d, lo, hi);
    }
    let near = i + 16;
    let k = pair_from(s, i, near, a, d, lo, hi);
    if k < near {
        return k;
    }
    pair_far(s, k, e, a, d, lo, hi)
}

// The last place of p with another byte than its first.
fn telling(p: &[u8]) -> usize
    requires { 0 < length p.now }
    ensures { result < length p.now }
{
    let mut d = p.len() - 1;
    while 0 < d {
        if p[d] != p[0] {
            return d;
        }
        d -= 1;
    }
    d
}

// A place from i on before which p doesn't stand, by its first byte and another.
fn skip_text(s: &[u8], i: usize, p: &[u8]) -> usize
    requires { i ≤ length s.now }
    ensures { Skips p.now s.now i result }
{
    if p.len() == 0 {
        return i;
    }
    let d = telling(p);
    seek(s, i, p[0], d, p[d], p[d])
}

// A place from i on before which the two parts don't stand, by the first byte of each.
fn skip(s: &[u8], i: usize, before: &[u8], name: &[u8]) -> usize
    requires { i ≤ length s.now }
    ensures { Skips (before.now ++ name.now) s.now i result }
{
    if before.len() == 0 {
        return skip_text(s, i, name);
    }
    if name.len() == 0 {
        return skip_text(s, i, before);
    }
    seek(s, i, before[0], before.len(), name[0], name[0])
}

// A place from i on before which `before` doesn't stand with a byte behind it from the first of `first` to its second;
// with any byte where `first` has not two.
pub fn skip_to(s: &[u8], i: usize, before: &[u8], first: &[u8]) -> usize
    requires { i ≤ length s.now }
    ensures { SkipsName before.now first.now s.now i result }
{
    if first.len() < 2 {
        return skip_text(s, i, before);
    }
    if before.len() != 0 {
        return seek(s, i, before[0], before.len(), first[0], first[1]);
    }
    if first[0] == first[1] {
        return seek(s, i, first[0], 0, first[0], first[1]);
    }
    i
}

// A place from i on before which the three parts don't stand: by the first byte of the first and of the last, where
// both have one. What stands between is a line's name, which a text may have at many places.
fn skip_around(s: &[u8], i: usize, before: &[u8], name: &[u8], after: &[u8]) -> usize
    requires { i ≤ length s.now }
    ensures { Skips (before.now ++ name.now ++ after.now) s.now i result }
{
    if before.len() == 0 {
        return skip(s, i, before, name);
    }
    if after.len() == 0 {
        return skip(s, i, before, name);
    }
    let d = before.len() + name.len();
    seek(s, i, before[0], d, after[0], after[0])
}

// Where the three parts first stand in s.
pub fn find_around(s: &[u8], before: &[u8], name: &[u8], after: &[u8]) -> Option<usize>
    ensures { result ≡
        found_of (find (before.now ++ name.now ++ after.now) s.now) }
{
    let mut i = skip_around(s, 0, before, name, after);
    while i < s.len() {
        if around_at(s, i, before, name, after) {
            return Some(i);
        }
        let from = i + 1;
        i = skip_around(s, from, before, name, after);
    }
    if around_at(s, i, before, name, after) {
        Some(i)
    } else {
        None
    }
}

// Where a pattern, with the name in its place, first stands in s.
pub fn find_filled(s: &[u8], name: &[u8], pattern: &[u8]) -> Option<usize>
    ensures { result ≡ found_of (find (name_filled name.now pattern.now) s.now) }
{
    let h = next(pattern, 0, b'#');
    if pattern.len() <= h {
        let none = &pattern[..0];
        return find_around(s, pattern, none, none);
    }
    let past = h + 1;
    find_around(s, &pattern[..h], name, &pattern[past..])
}

// Whether it stands anywhere in s.
pub fn contains_filled(s: &[u8], name: &[u8], pattern: &[u8]) -> bool
    ensures { result ≡ contains (name_filled name.now pattern.now) s.now }
{
    find_filled(s, name, pattern).is_some()
}

// Whether one of a table's patterns does.
pub fn any_in(table: &[u8], name: &[u8], s: &[u8]) -> bool
    ensures { result ≡ any_in table.now name.now s.now }
{
    let mut at = 0;
    let mut e = next(table, 0, b'|');
    while e < table.len() {
        if contains_filled(s, name, &table[at..e]) {
            return true;
        }
        at = e + 1;
        e = next(table, at, b'|');
    }
    contains_filled(s, name, &table[at..])
}

// Whether one of a table's texts stands in s at i.
pub fn any_at(table: &[u8], s: &[u8], i: usize) -> bool
    ensures { result ≡ any_at table.now s.now i }
{
    let mut at = 0;
    let mut e = next(table, 0, b'|');
    while e < table.len() {
        if begins_at(s, i, &table[at..e]) {
            return true;
        }
        at = e + 1;
        e = next(table, at, b'|');
    }
    begins_at(s, i, &table[at..])
}
