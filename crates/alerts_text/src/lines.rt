// Whether a folded text is about a line, names it as advice, or names others.
ghost use Rattle.std.specs.Prelude.{◌≡◌, ◌+◌, ◌-◌, ◌≤◌, length};
ghost use Rattle.basics.specs.Lists.{any};
ghost use Rattle.alerts.specs.Applies.{any_marker, window};
ghost use Rattle.alerts.specs.Promises.Reduced.{advice_markers, secondary, road};
ghost use Rattle.alerts_patterns.specs.Promises.Tables.{name_filled, patterns};
ghost use Rattle.alerts_text.specs.Promises.Tables.{lesser, near_marker, near_filled};
ghost use Rattle.alerts_text.specs.Promises.Marked.{Others, Settles, Opened, MarkedOk};

// Whether s has a marker of advice.
fn marked(s: &[u8]) -> bool
    ensures { result ≡ any_marker advice_markers s.now }
{
    alerts_patterns::any_in(
        b"PRIVILEGIE|SATURATION|REPORTEZ|REPORTER|UTILISEZ|EMPRUNTEZ|EN DIRECTION DE LA LIGNE|VERS LA LIGNE|CORRESPONDANCE AVEC",
        s,
        s,
    )
}

// 48 bytes back, or the start.
fn back(i: usize) -> usize
    ensures { result ≡ i - 48 }
{
    if i < 48 { 0 } else { i - 48 }
}

// 24 bytes on, or the end.
fn ahead(i: usize, end: usize) -> usize
    requires { i ≤ end }
    ensures { result ≡ lesser (i + 24) end }
{
    if end - i < 24 { end } else { i + 24 }
}

// Whether a marker stands in the window around the n bytes at i.
fn marked_near(s: &[u8], i: usize, n: usize) -> bool
    requires { i + n ≤ length s.now }
    ensures { result ≡ any_marker advice_markers (window s.now i n) }
{
    let start = back(i);
    let past = i + n;
    let e = ahead(past, s.len());
    marked(&s[start..e])
}

// How long a pattern is with the name in its place.
fn filled_len(name: &[u8], pattern: &[u8]) -> usize
    ensures { result ≡ length (name_filled name.now pattern.now) }
{
    let h = alerts_patterns::next(pattern, 0, b'#');
    if pattern.len() <= h {
        return pattern.len();
    }
    name.len() + (pattern.len() - 1)
}

// Whether a marker stands near the first place of a pattern.
fn near_marker(s: &[u8], name: &[u8], pattern: &[u8]) -> bool
    ensures { result ≡ near_filled s.now name.now pattern.now }
{
    match alerts_patterns::find_filled(s, name, pattern) {
        Some(i) => {
            let n = filled_len(name, pattern);
            marked_near(s, i, n)
        }
        None => false,
    }
}

// Whether a marker stands near one of the patterns of a table.
fn any_near(table: &[u8], name: &[u8], s: &[u8]) -> bool
    ensures { result ≡ any (near_filled s.now name.now) (patterns table.now) }
{
    let mut at = 0;
    let mut e = alerts_patterns::next(table, 0, b'|');
    while e < table.len() {
        if near_marker(s, name, &table[at..e]) {
            return true;
        }
        at = e + 1;
        e = alerts_patterns::next(table, at, b'|');
    }
    near_marker(s, name, &table[at..])
}

// Whether s names the line as advice.
fn secondary(s: &[u8], name: &[u8]) -> bool
    ensures { result ≡ secondary s.now name.now }
{
    if any_near(b"LIGNE #|LIGNES #|METRO #| ET #| # | #.", name, s) {
        return true;
    }
    if !alerts_patterns::any_in(b"RER |TRAVAUX SUR", name, s) {
        return false;
    }
    marked(s)
}

// Whether another line than the one given is named and a subject.
fn other_subject(s: &[u8], named: &[u8], own: usize) -> bool
    requires { length named.now ≡ 32 }
    ensures { Others s.now named.now own result }
{
    let mut subject = [0u8; 32];
    alerts_lines::mark_subjects(&mut subject, s);
    alerts_lines::any_line(alerts_lines::Pick::Subject, named, &subject, own)
}

// What the lines that a text names say of one line, before the text is read.
#[derive(Drop)]
pub enum Settled {
    // The text may be about it.
    Right,
    // It is about others.
    Wrong,
    // It names others too.
    Open,
}

pub fn settle(named: &[u8], own: usize) -> Settled
    requires { length named.now ≡ 32 }
    ensures { Settles named.now own result }
{
    if !alerts_lines::any_line(alerts_lines::Pick::Named, named, named, own) {
        return Settled::Right;
    }
    if !alerts_lines::any_line(alerts_lines::Pick::Own, named, named, own) {
        return Settled::Wrong;
    }
    if !alerts_lines::any_line(alerts_lines::Pick::Another, named, named, own) {
        return Settled::Right;
    }
    Settled::Open
}

// Whether a folded text that names the line and others may be about it.
fn not_advised(s: &[u8], named: &[u8], name: &[u8], own: usize) -> bool
    requires { length named.now ≡ 32 }
    ensures { Opened s.now named.now name.now own result }
{
    if !secondary(s, name) {
        return true;
    }
    !other_subject(s, named, own)
}

// Whether a folded text that names the marked lines may be about the line.
pub fn marked_ok(s: &[u8], named: &[u8], name: &[u8]) -> bool
    requires { length named.now ≡ 32 }
    ensures { MarkedOk s.now named.now name.now result }
{
    let own = alerts_lines::line_of(name);
    match settle(named, own) {
        Settled::Right => true,
        Settled::Wrong => false,
        Settled::Open => not_advised(s, named, name, own),
    }
}

// Whether a text in capitals is about road traffic.
pub fn road_traffic(s: &[u8]) -> bool
    ensures { result ≡ road s.now }
{
    if alerts_patterns::any_in(b"TRAFIC ROUTIER", s, s) {
        return true;
    }
    if !alerts_patterns::any_in(b"ARRET", s, s) {
        return false;
    }
    if !alerts_patterns::any_in(b"D\xc3\x89PLAC\xc3\x89|DEPLAC", s, s) {
        return false;
    }
    alerts_patterns::any_in(b"CIRCULATION", s, s)
}
