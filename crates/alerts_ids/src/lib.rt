// Tests on ids and short names, on lent slices, under the names of the rules.
#![tactic(auto)]

pub mod products; // product codes and their lines

ghost use Rattle.std.specs.Prelude.{◌≡◌, ◌++◌, ◌≤◌, length, drop};
ghost use Rattle.basics.specs.Lists.{all, any};
ghost use Rattle.basics.specs.Texts.{same};
ghost use Rattle.alerts.specs.Text.{text, ends, upper_byte, upper, same_ignoring_case};
ghost use Rattle.alerts.specs.Text.{digit, alphanumeric, trim_start, trim_end, trim};
ghost use Rattle.alerts.specs.Index.{undated};
ghost use Rattle.alerts.specs.Applies.{is_code, rfind, segment, tails_match, route_refs_match, short_names_equal};
ghost use Rattle.alerts.specs.Applies.{by_name, rail_modes, is_rail_like_mode, stop_tail};
ghost use Rattle.alerts_ids.specs.Promises.Cuts.{LastOf, cuts, LastPiece, takes, FirstPiece, Coded};

fn capital(b: u8) -> u8
    ensures { result ≡ upper_byte b }
{
    if b < 97 {
        return b;
    }
    if 122 < b {
        return b;
    }
    b - 32
}

fn is_digit(b: u8) -> bool
    ensures { result ≡ digit b }
{
    if b < 48 {
        return false;
    }
    b <= 57
}

fn is_alphanumeric(b: u8) -> bool
    ensures { result ≡ alphanumeric b }
{
    if b < 65 {
        return is_digit(b);
    }
    if b < 97 {
        return b <= 90;
    }
    b <= 122
}

pub fn same_ignoring_case(a: &[u8], b: &[u8]) -> bool
    ensures { result ≡ same_ignoring_case a.now b.now }
{
    if a.len() != b.len() {
        return false;
    }
    let mut i = 0;
    while i < a.len() {
        if capital(a[i]) != capital(b[i]) {
            return false;
        }
        i += 1;
    }
    true
}

fn trim_start(s: &[u8]) -> &[u8]
    ensures { result.now ≡ trim_start s.now }
{
    let mut a = 0;
    while a < s.len() {
        if s[a] != b' ' {
            return &s[a..];
        }
        a += 1;
    }
    &s[a..]
}

fn trim_end(s: &[u8]) -> &[u8]
    ensures { result.now ≡ trim_end s.now }
{
    let mut e = s.len();
    while 0 < e {
        let k = e - 1;
        if s[k] != b' ' {
            return &s[..e];
        }
        e = k;
    }
    &s[..e]
}

pub fn trimmed(s: &[u8]) -> &[u8]
    ensures { result.now ≡ trim s.now }
{
    trim_end(trim_start(s))
}

// Where the last c stands, or the length where there is none.
pub fn last_of(s: &[u8], c: u8) -> usize
    ensures { LastOf c s.now result }
{
    let mut e = s.len();
    while 0 < e {
        let k = e - 1;
        if s[k] == c {
            return k;
        }
        e = k;
    }
    s.len()
}

// A trip id without its date: up to the last '@'.
pub fn undated(t: &[u8]) -> &[u8]
    ensures { result.now ≡ undated t.now }
{
    let e = last_of(t, b'@');
    &t[..e]
}

// Whether t ends with ':' and then x.
pub fn ends_after_colon(t: &[u8], x: &[u8]) -> bool
    ensures { result ≡ ends (text ":" ++ x.now) t.now }
{
    if t.len() <= x.len() {
        return false;
    }
    let a = t.len() - x.len();
    let k = a - 1;
    if t[k] != b':' {
        return false;
    }
    slices::same(x, &t[a..])
}

// Whether an id is cut at a byte: at ':' and '/'.
fn is_cut(b: u8) -> bool
    ensures { result ≡ cuts b }
{
    if b == b':' {
        return true;
    }
    b == b'/'
}

// Where the last piece of x up to e begins.
fn piece_start(x: &[u8], e: usize) -> usize
    requires { e ≤ length x.now }
    ensures { LastPiece x.now e result }
{
    let mut a = e;
    while 0 < a {
        let k = a - 1;
        if is_cut(x[k]) {
            return a;
        }
        a = k;
    }
    a
}

fn has_alphanumeric(p: &[u8]) -> bool
    ensures { result ≡ any alphanumeric p.now }
{
    let mut i = 0;
    while i < p.len() {
        if is_alphanumeric(p[i]) {
            return true;
        }
        i += 1;
    }
    false
}

fn is_taken(p: &[u8], lettered: bool) -> bool
    ensures { result ≡ takes lettered p.now }
{
    if p.len() == 0 {
        return false;
    }
    if lettered {
        return has_alphanumeric(p);
    }
    true
}

// The last piece that is taken, or else all of x: from the end, so that most of x isn't read.
fn last_piece(x: &[u8], lettered: bool) -> &[u8]
    ensures { result.now ≡ rfind (takes lettered) x.now }
{
    let mut e = x.len();
    loop {
        let a = piece_start(x, e);
        if is_taken(&x[a..e], lettered) {
            return &x[a..e];
        }
        if a == 0 {
            return x;
        }
        e = a - 1;
    }
}

pub fn segment(x: &[u8]) -> &[u8]
    ensures { result.now ≡ segment x.now }
{
    last_piece(x, false)
}

pub fn stop_tail(x: &[u8]) -> &[u8]
    ensures { result.now ≡ stop_tail x.now }
{
    last_piece(x, true)
}

// Whether the bytes from i on are digits.
fn digits_from(p: &[u8], i: usize) -> bool
    ensures { result ≡ all digit (drop i p.now) }
{
    let mut k = i;
    while k < p.len() {
        if !is_digit(p[k]) {
            return false;
        }
        k += 1;
    }
    true
}

fn is_code(p: &[u8]) -> bool
    ensures { result ≡ is_code p.now }
{
    if p.len() < 5 {
        return false;
    }
    if 8 < p.len() {
        return false;
    }
    if capital(p[0]) != b'C' {
        return false;
    }
    digits_from(p, 1)
}

// Where the letters and digits from a on end.
fn run_end(x: &[u8], a: usize) -> usize
    requires { a ≤ length x.now }
    ensures { FirstPiece x.now a result }
{
    let mut e = a;
    while e < x.len() {
        if !is_alphanumeric(x[e]) {
            return e;
        }
        e += 1;
    }
    e
}

pub fn product_code_token(x: &[u8]) -> Option<(usize, usize)>
    ensures { Coded x.now result }
{
    let mut a = 0;
    loop {
        let e = run_end(x, a);
        if is_code(&x[a..e]) {
            return Some((a, e));
        }
        if x.len() <= e {
            return None;
        }
        a = e + 1;
    }
}

// Whether the last pieces of two route ids agree, where they have three bytes.
fn tails_match(leg: &[u8], informed: &[u8]) -> bool
    ensures { result ≡ tails_match (segment leg.now) (segment informed.now) }
{
    let q = segment(leg);
    if q.len() < 3 {
        return false;
    }
    same_ignoring_case(q, segment(informed))
}

pub fn route_refs_match(leg: &[u8], informed: &[u8]) -> bool
    ensures { result ≡ route_refs_match leg.now informed.now }
{
    if leg.len() == 0 {
        return false;
    }
    if informed.len() == 0 {
        return false;
    }
    if slices::same(leg, informed) {
        return true;
    }
    let Some((a, b)) = product_code_token(leg) else {
        return tails_match(leg, informed);
    };
    let Some((c, d)) = product_code_token(informed) else {
        return tails_match(leg, informed);
    };
    same_ignoring_case(&leg[a..b], &informed[c..d])
}

pub fn short_names_equal(leg: &[u8], other: &[u8]) -> bool
    ensures { result ≡ short_names_equal leg.now other.now }
{
    let s = trimmed(leg);
    if s.len() == 0 {
        return false;
    }
    let t = trimmed(other);
    if t.len() == 0 {
        return false;
    }
    same_ignoring_case(s, t)
}

// Whether a route id ends in the line's name and holds no product code.
pub fn by_name(short: &[u8], x: &[u8]) -> bool
    ensures { result ≡ by_name short.now x.now }
{
    let g = segment(x);
    if 4 < g.len() {
        return false;
    }
    if !short_names_equal(short, g) {
        return false;
    }
    match product_code_token(x) {
        Some((_, _)) => false,
        None => true,
    }
}

fn is_tram_like(mode: &[u8]) -> bool
    ensures { result ≡ any (same (upper mode.now)) (drop 4 rail_modes) }
{
    if same_ignoring_case(mode, b"TRAM") {
        return true;
    }
    if same_ignoring_case(mode, b"TRAMWAY") {
        return true;
    }
    same_ignoring_case(mode, b"RER")
}

pub fn is_rail_like_mode(mode: &[u8]) -> bool
    ensures { result ≡ is_rail_like_mode mode.now }
{
    if same_ignoring_case(mode, b"RAIL") {
        return true;
    }
    if same_ignoring_case(mode, b"TRAIN") {
        return true;
    }
    if same_ignoring_case(mode, b"METRO") {
        return true;
    }
    if same_ignoring_case(mode, b"SUBWAY") {
        return true;
    }
    is_tram_like(mode)
}
