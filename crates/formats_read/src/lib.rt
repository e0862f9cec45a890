// Reads at a place of a lent slice, by the format of the value that stands there. They are total: where no such
// value stands, they answer something.
#![tactic(auto)]

ghost use Rattle.std.specs.Prelude.{◌≡◌, ℕ, ◌≤◌, ℤ, length};
ghost use Rattle.formats.specs.Format.{Value, number, signed, float, optional};
ghost use Rattle.formats.specs.Promises.Outcome.{format_at};
ghost use Rattle.formats_write.specs.Promises.Given.{given_number, given_signed};
ghost use Rattle.formats_read.specs.Promises.Fields.{Has, field_to};
ghost use Rattle.formats_read.specs.Promises.Here.{Here, Field};
ghost use Rattle.formats_read.specs.Promises.Lists.{Reaches};
ghost use Rattle.formats_read.specs.Promises.Reads.{ReadsNumber, ReadsText};

use formats::{Span, kinds};

// Where the record's part from field k on begins.
pub fn locate(t: &[u64], depth: u32, node: u64, k: u32, s: &[u8], at: usize) -> Option<usize>
    requires { at ≤ length s.now }
    ensures { result ≡ field_to k (format_at depth t.now node) s.now at }
{
    let mut d = depth;
    let mut n = node;
    let mut p = at;
    for _ in 0..k {
        if d == 0 {
            return None;
        }
        let kind = formats::word(t, n, 0);
        let a = formats::word(t, n, 1);
        let b = formats::word(t, n, 2);
        if kind != kinds::PAIR {
            return None;
        }
        p = formats::pass(t, d - 1, a, s, p)?;
        n = b;
        d -= 1;
    }
    Some(p)
}

// The place of field k of the record at `at`.
pub fn place(t: &[u64], depth: u32, node: u64, k: u32, s: &[u8], at: usize) -> usize
    ensures { (i : Has k (format_at depth t.now node)) (v : Value (format_at depth t.now node)) (q : ℕ)
        → Here (format_at depth t.now node) s.now at q v
        → Field k (format_at depth t.now node) i s.now at q v result }
{
    if s.len() < at {
        return 0;
    }
    locate(t, depth, node, k, s, at).unwrap_or(0)
}

// The place past the value at `at`.
pub fn past(t: &[u64], depth: u32, node: u64, s: &[u8], at: usize) -> usize
    ensures { (v : Value (format_at depth t.now node)) (q : ℕ)
        → Here (format_at depth t.now node) s.now at q v → result ≡ q }
{
    if s.len() < at {
        return 0;
    }
    formats::pass(t, depth, node, s, at).unwrap_or(0)
}

// The place of the value i of the values from `at` on.
pub fn nth(t: &[u64], depth: u32, node: u64, s: &[u8], at: usize, i: u64) -> usize
    ensures { Reaches (format_at depth t.now node) s.now at i result }
{
    let mut p = at;
    for _ in 0..i {
        p = past(t, depth, node, s, p);
    }
    p
}

// A number, and the place past it.
#[derive(Drop)]
pub struct Numbered {
    pub value: u64,
    pub next: usize,
}

// The number, the small number or the count at `at`.
pub fn number(s: &[u8], at: usize) -> Numbered
    ensures { ReadsNumber s.now at result.value result.next }
{
    let (value, next) = formats::number(s, at).unwrap_or((0, 0));
    Numbered { value, next }
}

pub fn signed(s: &[u8], at: usize) -> i64
    ensures { (lo hi z : ℤ) (q : ℕ) → Here (signed lo hi) s.now at q z → result ≡ z }
{
    integers::from_zigzag(number(s, at).value)
}

// The 64 bits of the float at `at`.
pub fn float(s: &[u8], at: usize) -> u64
    ensures { (n q : ℕ) → Here float s.now at q n → result ≡ n }
{
    formats::float(s, at).map_or(0, |(bits, _)| bits)
}

// The bytes of the text at `at`.
pub fn text(s: &[u8], at: usize) -> Span
    ensures { ReadsText s.now at result.from result.to }
{
    let n = number(s, at);
    let from = n.next;
    let size = n.value as usize;
    if s.len() < from || s.len() - from < size {
        return Span { from: 0, to: 0 };
    }
    Span {
        from,
        to: from + size,
    }
}

pub fn optional_number(s: &[u8], at: usize) -> Option<u64>
    ensures { (lo hi : ℕ) (v : Value (optional (number lo hi))) (q : ℕ)
        → Here (optional (number lo hi)) s.now at q v → given_number result ≡ v }
{
    if s.len() <= at {
        return None;
    }
    if formats::tag(s, at) == 1 {
        return Some(number(s, at + 1).value);
    }
    None
}

pub fn optional_signed(s: &[u8], at: usize) -> Option<i64>
    ensures { (lo hi : ℤ) (v : Value (optional (signed lo hi))) (q : ℕ)
        → Here (optional (signed lo hi)) s.now at q v → given_signed result ≡ v }
{
    if s.len() <= at {
        return None;
    }
    if formats::tag(s, at) == 1 {
        return Some(signed(s, at + 1));
    }
    None
}
