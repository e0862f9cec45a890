// A vehicle sheet's entries merged with those of a feed: both ascend by key, the sheet's entry stands over the old one,
// and those told before a limit go. The merge is run twice, to count and to write, and needs no working buffer.
#![tactic(auto)]

ghost use Rattle.std.specs.Prelude.{◌≡◌, cond, ◌+◌, ◌≤◌, ◌<◌, length, pos, ◌-ℤ◌, T};
ghost use Rattle.std.proofs.Math.Seq.{slice};
ghost use Rattle.std.specs.Int.Signed.{non_neg};
ghost use Rattle.formats.specs.Number.{zag};
ghost use Rattle.overlay_merge.specs.Promises.Entry.{ReadsEntry};
ghost use Rattle.overlay_merge.specs.Promises.Merge.{first_of, Fresh, Turned, Counts};
ghost use Rattle.overlay_merge.specs.Promises.Writes.{PutsEntry, Writes};

use std::cmp::Ordering;

// Where an entry's key is, the code of the time when it was told, and the place past the entry.
#[derive(Drop)]
struct Entry {
    from: usize,
    to: usize,
    updated: u64,
    next: usize,
}

// A turn of the merge: the entry that it takes, of the sheet or of the feed, and whether it stays; and what is left:
// n entries of the sheet from p on, and m of the feed from q on.
#[derive(Clone, Copy)]
pub struct Turn {
    pub sheet: bool,
    pub from: usize,
    pub to: usize,
    pub keep: bool,
    pub p: usize,
    pub n: u64,
    pub q: usize,
    pub m: u64,
}

fn read_entry(s: &[u8], at: usize) -> Entry
    ensures { ReadsEntry s.now at result.from result.to result.updated result.next }
{
    let key = formats_read::text(s, at);
    let a = formats_skip::past_optional_text(s, key.to);
    let b = formats_skip::past_float(s, a);
    let c = formats_skip::past_float(s, b);
    let u = formats_read::number(s, c);
    Entry {
        from: key.from,
        to: key.to,
        updated: u.value,
        next: u.next,
    }
}

// Whether the time of a code is not before that of the other.
fn fresh(updated: u64, limit: u64) -> bool
    ensures { Fresh updated limit result }
{
    integers::from_zigzag(limit) <= integers::from_zigzag(updated)
}

// Which of two keys comes first, where n and m entries are left.
fn first(
    sheet: &[u8],
    n: u64,
    a: usize,
    e: usize,
    old: &[u8],
    m: u64,
    b: usize,
    f: usize,
) -> Ordering
    requires { (a ≤ e) × (e ≤ length sheet.now) × (b ≤ f) × (f ≤ length old.now) }
    ensures { result ≡ first_of n m (slice a e sheet.now) (slice b f old.now) }
{
    if n == 0 {
        return Ordering::Greater;
    }
    if m == 0 {
        return Ordering::Less;
    }
    slices::compare(&sheet[a..e], &old[b..f])
}

fn take_turn(sheet: &[u8], p: usize, n: u64, old: &[u8], q: usize, m: u64, limit: u64) -> Turn
    requires { 0 < n + m }
    ensures { Turned sheet.now p n old.now q m limit result }
{
    let x = read_entry(sheet, p);
    let y = read_entry(old, q);
    match first(sheet, n, x.from, x.to, old, m, y.from, y.to) {
        Ordering::Less => Turn {
            sheet: true,
            from: p,
            to: x.next,
            keep: fresh(x.updated, limit),
            p: x.next,
            n: n - 1,
            q,
            m,
        },
        Ordering::Equal => Turn {
            sheet: true, // over the old one
            from: p,
            to: x.next,
            keep: fresh(x.updated, limit),
            p: x.next,
            n: n - 1,
            q: y.next,
            m: m - 1,
        },
        Ordering::Greater => Turn {
            sheet: false,
            from: q,
            to: y.next,
            keep: fresh(y.updated, limit),
            p,
            n,
            q: y.next,
            m: m - 1,
        },
    }
}

// One more where the entry stays.
fn counted(kept: u64, keep: bool) -> u64
    requires { kept ≤ 1024 }
    ensures { result ≡ cond keep (kept + 1) kept }
{
    kept + u64::from(keep)
}

// How many entries the merge leaves of n of a sheet from a on and m of a feed from b on: up to 1,024, or more.
pub fn count_entries(
    sheet: &[u8],
    a: usize,
    n: u64,
    old: &[u8],
    b: usize,
    m: u64,
    limit: u64,
) -> u64
    ensures { Counts sheet.now a n old.now b m limit result }
{
    let mut p = a;
    let mut i = n;
    let mut q = b;
    let mut j = m;
    let mut kept: u64 = 0;
    // No `for`: a turn takes from either list, or from both.
    while 0 < i || 0 < j {
        let t = take_turn(sheet, p, i, old, q, j, limit);
        kept = counted(kept, t.keep);
        if 1024 < kept {
            return kept;
        }
        p = t.p;
        i = t.n;
        q = t.q;
        j = t.m;
    }
    kept
}

// The entry that a turn takes, where it stays.
fn write_entry(out: &mut [u8], w: Option<usize>, sheet: &[u8], old: &[u8], t: Turn) -> Option<usize>
    ensures { PutsEntry out.old w out.new result sheet.now old.now t }
{
    if t.keep {
        if t.sheet {
            return formats_write::stretch(out, w, sheet, t.from, t.to);
        }
        return formats_write::stretch(out, w, old, t.from, t.to);
    }
    w
}

// What the merge leaves of n entries of a sheet from a on and m of a feed from b on.
pub fn write_entries(
    out: &mut [u8],
    w: Option<usize>,
    sheet: &[u8],
    a: usize,
    n: u64,
    old: &[u8],
    b: usize,
    m: u64,
    limit: u64,
) -> Option<usize>
    ensures { Writes out.old w out.new result sheet.now a n old.now b m limit }
{
    let mut p = a;
    let mut i = n;
    let mut q = b;
    let mut j = m;
    let mut k = w;
    // No `for`: a turn takes from either list, or from both.
    while 0 < i || 0 < j {
        let t = take_turn(sheet, p, i, old, q, j, limit);
        k = write_entry(out, k, sheet, old, t);
        p = t.p;
        i = t.n;
        q = t.q;
        j = t.m;
    }
    k
}

// The code of the time 900 seconds before the clock's: what was told before it goes.
pub fn limit_of(clock: i64) -> u64
    requires { T (non_neg clock) }
    ensures { zag result ≡ clock -ℤ pos 900 }
{
    integers::to_zigzag(clock - 900)
}
