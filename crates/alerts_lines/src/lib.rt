// The lines that a folded text names and those that it is about: a byte for each of the 32 lines is set to 1, by one
// scan for each text that stands before a name.
#![tactic(auto)]

ghost use Rattle.std.specs.Prelude.{◌≡◌, ◌||◌, ◌+◌, ◌-◌, ◌<◌, ◌≤◌, eqb, length, get_or, take, drop};
ghost use Rattle.basics.specs.Texts.{same};
ghost use Rattle.alerts.specs.Text.{begins};
ghost use Rattle.alerts_lines.specs.Promises.Lines.{width_of, line_at, short_of, ten_of, long_of, last_of, bare_of};
ghost use Rattle.alerts_lines.specs.Promises.Lines.{number_of, tram_of, named_of, subject_of, stands_at, row_at, row};
ghost use Rattle.alerts_lines.specs.Promises.Lines.{family_of, table_of, IsLine};
ghost use Rattle.alerts_lines.specs.Promises.Marks.{on, any_from, pick_of, picks, Marked, MarkedBy, MarkedOne};
ghost use Rattle.alerts_lines.specs.Promises.Marks.{MarkedIn, Begin, Cleared};

// What is asked of each line.
#[derive(Clone, Copy)]
pub enum Pick {
    // It is named.
    Named,
    // It is named, and the one given.
    Own,
    // It is named, and another.
    Another,
    // It is named, another, and a subject.
    Subject,
}

// How long the name of line k is.
fn width(k: usize) -> usize
    ensures { result ≡ width_of k }
{
    if k < 6 {
        return 1;
    }
    if k < 11 {
        return 2;
    }
    if k < 19 {
        return 1;
    }
    if k < 20 {
        return 2;
    }
    if k < 24 { 3 } else { 2 }
}

// Whether a part of a table stands in s at j.
fn part_at(s: &[u8], j: usize, table: &[u8], a: usize, e: usize) -> bool
    requires { (a ≤ e) × (e ≤ length table.now) }
    ensures { result ≡ begins (take (e - a) (drop a table.now)) (drop j s.now) }
{
    alerts_patterns::begins_at(s, j, &table[a..e])
}

// Whether a part of a table is the name.
fn part_is(table: &[u8], a: usize, e: usize, name: &[u8]) -> bool
    requires { (a ≤ e) × (e ≤ length table.now) }
    ensures { result ≡ same (take (e - a) (drop a table.now)) name.now }
{
    slices::same(&table[a..e], name)
}

// Whether the name of line k stands in s at j.
fn line_at(s: &[u8], j: usize, k: usize) -> bool
    requires { k < 32 }
    ensures { result ≡ begins (line_at k) (drop j s.now) }
{
    let a = 3 * k;
    let e = a + width(k);
    part_at(
        s,
        j,
        b"A  B  C  D  E  1  10 11 12 13 14 2  3  4  5  6  7  8  9  T1 T10T11T12T13T2 T3 T4 T5 T6 T7 T8 T9 ",
        a,
        e,
    )
}

// Whether line k has the name.
fn line_is(k: usize, name: &[u8]) -> bool
    requires { k < 32 }
    ensures { result ≡ same (line_at k) name.now }
{
    let a = 3 * k;
    let e = a + width(k);
    part_is(
        b"A  B  C  D  E  1  10 11 12 13 14 2  3  4  5  6  7  8  9  T1 T10T11T12T13T2 T3 T4 T5 T6 T7 T8 T9 ",
        a,
        e,
        name,
    )
}

// Whether the name of line k stands in s at j, and behind it one of a table's texts.
fn stands_at(s: &[u8], j: usize, afters: &[u8], k: usize) -> bool
    requires { k < 32 }
    ensures { result ≡ stands_at s.now j afters.now k }
{
    if !line_at(s, j, k) {
        return false;
    }
    let i = j + width(k);
    alerts_patterns::any_at(afters, s, i)
}

// The line with a short name, of one digit at most, whose name may begin with two bytes, or 32.
fn short_line(b: u8, c: u8) -> usize
    ensures { result ≡ short_of b c }
{
    if b < 49 {
        return 32;
    }
    if b == 49 {
        return 5;
    }
    if b < 58 {
        return (b - 39) as usize;
    }
    if b < 65 {
        return 32;
    }
    if b < 70 {
        return (b - 65) as usize;
    }
    if b != 84 {
        return 32;
    }
    if c == 49 {
        return 19;
    }
    if c < 50 {
        return 32;
    }
    if c < 58 { (c - 26) as usize } else { 32 }
}

fn long_number(c: u8) -> usize
    ensures { result ≡ ten_of c }
{
    if c < 48 {
        return 32;
    }
    if c < 53 { (c - 42) as usize } else { 32 }
}

// The line with a long name, of two digits, whose name may begin with three bytes, or 32.
fn long_line(b: u8, c: u8, d: u8) -> usize
    ensures { result ≡ long_of b c d }
{
    if b == 49 {
        return long_number(c);
    }
    if b != 84 {
        return 32;
    }
    if c != 49 {
        return 32;
    }
    if d < 48 {
        return 32;
    }
    if d < 52 { (d - 28) as usize } else { 32 }
}

// The byte at i, or 0.
fn byte_at(s: &[u8], i: usize) -> u8
    ensures { result ≡ get_or s.now i 0 }
{
    if i < s.len() { s[i] } else { 0 }
}

fn long_at(s: &[u8], j: usize, b: u8, c: u8) -> usize
    requires { j < length s.now }
    ensures { result ≡ long_of b c (get_or s.now (j + 2) 0) }
{
    if s.len() - j <= 2 {
        return long_line(b, c, 0);
    }
    let i = j + 2;
    long_line(b, c, s[i])
}

// Marks line k, if there is one and it stands at j.
fn mark_one(marks: &mut [u8], s: &[u8], j: usize, afters: &[u8], k: usize)
    requires { length marks.old ≡ 32 }
    ensures { MarkedOne (stands_at s.now j afters.now) k
        marks.old marks.new }
{
    if 32 <= k {
        return;
    }
    if marks[k] == 1 {
        return;
    }
    if !stands_at(s, j, afters, k) {
        return;
    }
    marks[k] = 1;
}

// Marks the lines that stand at j.
fn mark_at(marks: &mut [u8], s: &[u8], j: usize, afters: &[u8])
    requires { length marks.old ≡ 32 }
    ensures { Marked (stands_at s.now j afters.now)
        marks.old marks.new }
{
    if s.len() <= j {
        return;
    }
    let b = s[j];
    let c = byte_at(s, j + 1);
    let short = short_line(b, c);
    if short == 32 {
        return;
    }
    mark_one(marks, s, j, afters, short);
    let long = long_at(s, j, b, c);
    mark_one(marks, s, j, afters, long);
}

// Marks the lines that stand behind `before` at i.
fn mark_place(marks: &mut [u8], s: &[u8], i: usize, before: &[u8], afters: &[u8])
    requires { length marks.old ≡ 32 }
    ensures { Marked (row_at s.now before.now afters.now i)
        marks.old marks.new }
{
    if !alerts_patterns::begins_at(s, i, before) {
        return;
    }
    let j = i + before.len();
    mark_at(marks, s, j, afters);
}

// Marks the lines that stand anywhere in s behind `before`, of those whose names begin with a byte from the first of
// `first` to its second.
fn mark_row(marks: &mut [u8], s: &[u8], before: &[u8], first: &[u8], afters: &[u8])
    requires { length marks.old ≡ 32 }
    ensures { MarkedBy first.now (row s.now before.now afters.now)
        marks.old marks.new }
{
    let mut i = alerts_patterns::skip_to(s, 0, before, first);
    while i < s.len() {
        mark_place(marks, s, i, before, afters);
        let from = i + 1;
        i = alerts_patterns::skip_to(s, from, before, first);
    }
}

// Marks the lines that stand anywhere in s where a family's '#' is.
fn mark_family(marks: &mut [u8], s: &[u8], first: &[u8], family: &[u8])
    requires { length marks.old ≡ 32 }
    ensures { MarkedBy first.now (family_of s.now family.now)
        marks.old marks.new }
{
    let h = alerts_patterns::next(family, 0, b'#');
    if family.len() <= h {
        return;
    }
    let past = h + 1;
    mark_row(marks, s, &family[..h], first, &family[past..]);
}

// Marks the lines of a table of families.
fn mark_table(marks: &mut [u8], s: &[u8], first: &[u8], table: &[u8])
    requires { length marks.old ≡ 32 }
    ensures { MarkedBy first.now (table_of table.now s.now)
        marks.old marks.new }
{
    let mut at = 0;
    let mut e = alerts_patterns::next(table, 0, b';');
    while e < table.len() {
        mark_family(marks, s, first, &table[at..e]);
        at = e + 1;
        e = alerts_patterns::next(table, at, b';');
    }
    mark_family(marks, s, first, &table[at..]);
}

fn either(a: u8, b: bool) -> u8
    ensures { eqb result 1 ≡ eqb a 1 || b }
{
    if b { 1 } else { a }
}

// Adds the marks of l, for the lines from one on up to another.
fn add(marks: &mut [u8], l: &[u8], from: usize, past: usize)
    requires { (length marks.old ≡ 32) × (length l.now ≡ 32) × (from ≤ past) × (past ≤ 32) }
    ensures { MarkedIn (on l.now) from past marks.old marks.new }
{
    let mut k = from;
    while k < past {
        let t = l[k] == 1;
        marks[k] = either(marks[k], t);
        k += 1;
    }
}

// Unmarks the lines from one on up to another.
fn clear(l: &mut [u8], from: usize, past: usize)
    requires { (length l.old ≡ 32) × (from ≤ past) × (past ≤ 32) }
    ensures { Cleared from past l.new }
{
    let mut k = from;
    while k < past {
        l[k] = 0;
        k += 1;
    }
}

// Marks the lines of a table of families, from one on up to another; their names begin with a byte from the first of
// `first` to its second. The others count as marked meanwhile, so that no place of theirs is looked at.
fn mark_class(marks: &mut [u8], s: &[u8], first: &[u8], table: &[u8], from: usize, past: usize)
    requires { (length marks.old ≡ 32) × (from ≤ past) × (past ≤ 32) × Begin first.now from past }
    ensures { MarkedIn (table_of table.now s.now) from past
        marks.old marks.new }
{
    let mut l = [1u8; 32];
    clear(&mut l, from, past);
    mark_table(&mut l, s, first, table);
    add(marks, &l, from, past);
}

// Whether s ends with a space and the name of line k.
fn line_last(s: &[u8], k: usize) -> bool
    requires { k < 32 }
    ensures { result ≡ last_of s.now k }
{
    let w = width(k);
    if s.len() <= w {
        return false;
    }
    let j = s.len() - w;
    let i = j - 1;
    if s[i] != b' ' {
        return false;
    }
    line_at(s, j, k)
}

// Marks the numbers that stand last in s, behind a space.
fn mark_last(marks: &mut [u8], s: &[u8])
    requires { length marks.old ≡ 32 }
    ensures { MarkedIn (last_of s.now) 5 19 marks.old marks.new }
{
    let mut k = 5;
    while k < 19 {
        let t = line_last(s, k);
        marks[k] = either(marks[k], t);
        k += 1;
    }
}

// Marks the numbers that stand alone in s.
fn mark_bare(marks: &mut [u8], s: &[u8])
    requires { length marks.old ≡ 32 }
    ensures { MarkedIn (bare_of s.now) 5 19 marks.old marks.new }
{
    mark_class(marks, s, b"19", b" # |.|,;ET #", 5, 19);
    mark_last(marks, s);
}

fn mark_numbers(marks: &mut [u8], s: &[u8])
    requires { length marks.old ≡ 32 }
    ensures { MarkedIn (number_of s.now) 5 19 marks.old marks.new }
{
    mark_class(marks, s, b"19", b"METRO #;METRO#;LIGNE #;LIGNES #", 5, 19);
    if !alerts_patterns::any_in(b"LIGNE|METRO", s, s) {
        return;
    }
    mark_bare(marks, s);
}

fn mark_trams(marks: &mut [u8], s: &[u8])
    requires { length marks.old ≡ 32 }
    ensures { MarkedIn (tram_of s.now) 19 32 marks.old marks.new }
{
    if alerts_patterns::any_in(b"TRAM", s, s) {
        mark_class(marks, s, b"TT", b"#", 19, 32);
        return;
    }
    mark_class(marks, s, b"TT", b" #", 19, 32);
}

// Marks the lines that s names.
pub fn mark_named(marks: &mut [u8], s: &[u8])
    requires { length marks.old ≡ 32 }
    ensures { Marked (named_of s.now) marks.old marks.new }
{
    mark_class(marks, s, b"AE", b"RER #;RER#", 0, 5);
    mark_numbers(marks, s);
    mark_trams(marks, s);
}

// Marks the lines that s is about.
pub fn mark_subjects(marks: &mut [u8], s: &[u8])
    requires { length marks.old ≡ 32 }
    ensures { Marked (subject_of s.now) marks.old marks.new }
{
    mark_table(
        marks,
        s,
        b"",
        b"RER #;RER#;METRO #;INCIDENT LIGNE #;LIGNE # :| -| INTERRUPT| TRAFIC",
    );
    mark_place(marks, s, 0, b"LIGNE ", b"");
}

// The line that has the name, or 32.
pub fn line_of(name: &[u8]) -> usize
    ensures { IsLine name.now result }
{
    if name.len() == 0 {
        return 32;
    }
    let b = name[0];
    let c = byte_at(name, 1);
    let short = short_line(b, c);
    if 32 <= short {
        return 32;
    }
    if line_is(short, name) {
        return short;
    }
    let long = long_at(name, 0, b, c);
    if 32 <= long {
        return 32;
    }
    if line_is(long, name) { long } else { 32 }
}

fn picked(pick: Pick, named: bool, subject: bool, own: bool) -> bool
    ensures { result ≡ pick_of pick named subject own }
{
    if !named {
        return false;
    }
    match pick {
        Pick::Named => true,
        Pick::Own => own,
        Pick::Another => !own,
        Pick::Subject => {
            if own {
                return false;
            }
            subject
        }
    }
}

// Whether a line is so.
pub fn any_line(pick: Pick, named: &[u8], subject: &[u8], own: usize) -> bool
    requires { (length named.now ≡ 32) × (length subject.now ≡ 32) }
    ensures { result ≡ any_from 0 32 (picks pick named.now subject.now own) }
{
    let mut k = 0;
    while k < 32 {
        let n = named[k] == 1;
        let p = subject[k] == 1;
        let o = k == own;
        if picked(pick, n, p, o) {
            return true;
        }
        k += 1;
    }
    false
}
