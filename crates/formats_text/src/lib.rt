// Whether a text is of a class.
#![tactic(auto)]

ghost use Rattle.std.specs.Prelude.{◌≡◌, [], ◌<◌, length};
ghost use Rattle.formats.specs.Class.{printable, token, allowed, inside, due, utf8_rows, next, sequences, in_class};
ghost use Rattle.basics.specs.Lists.{all};
ghost use Rattle.formats.specs.Promises.Outcome.{class_of};
ghost use Rattle.formats_text.specs.Promises.Due.{ranges_of, due_of};

// What is due in the middle of a text of UTF-8: so many bytes, the first of them from `low` to `high`.
#[derive(Clone, Copy)]
struct Due {
    more: u64,
    low: u8,
    high: u8,
}

impl Due {
    fn new(more: u64, low: u8, high: u8) -> Self
        ensures { result ≡ record { more = more; low = low; high = high } }
    {
        Due { more, low, high }
    }
}

// What is due after a first byte: the rest of its row in the table.
// Kept: a `match` on the ranges becomes look-ups, and takes a quarter longer on short texts.
fn lead(b: u8) -> Option<Due>
    ensures { due_of result ≡ due utf8_rows b }
{
    if b < 0x80 {
        return Some(Due::new(0, 0x80, 0xBF));
    }
    if b < 0xC2 {
        return None;
    }
    if b < 0xE0 {
        return Some(Due::new(1, 0x80, 0xBF));
    }
    if b == 0xE0 {
        return Some(Due::new(2, 0xA0, 0xBF));
    }
    if b < 0xED {
        return Some(Due::new(2, 0x80, 0xBF));
    }
    if b == 0xED {
        return Some(Due::new(2, 0x80, 0x9F));
    }
    if b < 0xF0 {
        return Some(Due::new(2, 0x80, 0xBF));
    }
    if b == 0xF0 {
        return Some(Due::new(3, 0x90, 0xBF));
    }
    if b < 0xF4 {
        return Some(Due::new(3, 0x80, 0xBF));
    }
    if b == 0xF4 {
        return Some(Due::new(3, 0x80, 0x8F));
    }
    None
}

// What is due after a byte, where `due` is due before it.
fn step(due: Due, b: u8) -> Option<Due>
    ensures { due_of result ≡ next (ranges_of due) b }
{
    if due.more == 0 {
        return lead(b);
    }
    if b < due.low || due.high < b {
        return None;
    }
    Some(Due::new(due.more - 1, 0x80, 0xBF))
}

// Whether each byte is from `low` to `high`. With no early end, so that the compiler makes one comparison of a block.
fn all_within(v: &[u8], low: u8, high: u8) -> bool
    ensures { result ≡ all (inside (low, high)) v.now }
{
    let mut all = true;
    for b in v {
        all &= (low..=high).contains(b);
    }
    all
}

// Most texts are plain for long stretches: those are passed eight bytes at a time.
// Kept: with the rest as a slice in place of the index it takes a tenth longer.
fn utf8(v: &[u8]) -> bool
    ensures { result ≡ sequences v.now [] }
{
    let mut due = Due::new(0, 0x80, 0xBF);
    let mut i = 0;
    while i < v.len() {
        if due.more == 0 && 8 <= v.len() - i && all_within(&v[i..i + 8], 0, 127) {
            i += 8;
        } else {
            let Some(next) = step(due, v[i]) else {
                return false;
            };
            due = next;
            i += 1;
        }
    }
    due.more == 0
}

// Of fewer than eight bytes: the first four and the last four, where there are so many.
fn few_printable(v: &[u8]) -> bool
    requires { length v.now < 8 }
    ensures { result ≡ all (allowed printable) v.now }
{
    if 4 <= v.len() {
        all_within(&v[..4], 32, 126) & all_within(&v[v.len() - 4..], 32, 126)
    } else {
        v.iter().all(|b| (32..=126).contains(b))
    }
}

// The last eight are looked at again where fewer than eight are left: that saves a turn for each of these.
fn all_printable(v: &[u8]) -> bool
    ensures { result ≡ all (allowed printable) v.now }
{
    if v.len() < 8 {
        return few_printable(v);
    }
    let mut left = v;
    while let Some((block, rest)) = left.split_first_chunk::<8>() {
        if !all_within(block, 32, 126) {
            return false;
        }
        left = rest;
    }
    all_within(&v[v.len() - 8..], 32, 126)
}

// Whether a byte may stand in a token.
fn in_token(b: u8) -> bool
    ensures { result ≡ allowed token b }
{
    matches!(b, 33..=57 | 59..=126)
}

fn all_in_token(v: &[u8]) -> bool
    ensures { result ≡ all (allowed token) v.now }
{
    v.iter().all(|b| in_token(*b))
}

// Whether a text is of the class that a table has as c.
pub fn in_class(c: u64, v: &[u8]) -> bool
    ensures { result ≡ in_class (class_of c) v.now }
{
    match c {
        0 => true,
        1 => all_printable(v),
        2 => !v.is_empty() && all_in_token(v),
        _ => utf8(v),
    }
}
