// A script of calls, read where it stands: what each asks for.
#![tactic(auto)]

use formats::Span;

mod table;

ghost use Rattle.std.specs.Prelude.{◌≡◌, ℕ};
ghost use Rattle.formats.specs.Format.{Value};
ghost use Rattle.formats.specs.Promises.Outcome.{skip_to};
ghost use Rattle.formats_read.specs.Promises.Fields.{Has};
ghost use Rattle.formats_read.specs.Promises.Here.{Here, Field};
ghost use Rattle.formats_read.specs.Promises.Lists.{Reaches};
ghost use Rattle.replay_script.specs.Script.{call_form, length_form, lengths_form, script};
ghost use Rattle.replay_script.specs.Promises.Asked.{ReadsCall, ReadsLength, Counted};

use table::{CALL, DEPTH, FORMS, LENGTH, LENGTHS, SCRIPT};

// What a call asks for: its kind; where its feed id, its message, sheet or card, and its clock stand; its output's
// length; where the lengths of its working buffers stand; and where it ends.
#[derive(Clone, Copy)]
pub struct Asked {
    pub kind: u64,
    pub feed: Span,
    pub input: Span,
    pub clock: usize,
    pub out: usize,
    pub work: usize,
    pub next: usize,
}

// The place of field k of the call at `at`.
fn field(k: u32, s: &[u8], at: usize) -> usize
    ensures { (i : Has k call_form) (v : Value call_form) (q : ℕ) → Here call_form s.now at q v
        → Field k call_form i s.now at q v result }
{
    formats_read::place(&FORMS, DEPTH, CALL, k, s, at)
}

// The place past the lengths at `at`.
fn past_lengths(s: &[u8], at: usize) -> usize
    ensures { (v : Value lengths_form) (q : ℕ) → Here lengths_form s.now at q v → result ≡ q }
{
    formats_read::past(&FORMS, DEPTH, LENGTHS, s, at)
}

// The call at `at`.
pub fn read(s: &[u8], at: usize) -> Asked
    ensures { ReadsCall s.now at result }
{
    let feed = formats_read::text(s, field(1, s, at));
    let input = formats_read::text(s, field(2, s, at));
    let work = field(5, s, at);
    Asked {
        kind: formats_read::number(s, at).value,
        feed,
        input,
        clock: field(3, s, at),
        out: formats_read::number(s, field(4, s, at)).value as usize,
        work,
        next: past_lengths(s, work),
    }
}

// The place of length i of those from `at` on.
fn nth(s: &[u8], at: usize, i: u64) -> usize
    ensures { Reaches length_form s.now at i result }
{
    formats_read::nth(&FORMS, DEPTH, LENGTH, s, at, i)
}

// Length i of the lengths at `at`; 0 where there are fewer.
pub fn length_at(s: &[u8], at: usize, i: u64) -> usize
    ensures { ReadsLength s.now at i result }
{
    let n = formats_read::number(s, at);
    if n.value <= i {
        return 0;
    }
    let first = n.next;
    formats_read::number(s, nth(s, first, i)).value as usize
}

// The place past the script at the start.
fn past(s: &[u8]) -> Option<usize>
    ensures { result ≡ skip_to script s.now 0 }
{
    formats::pass(&FORMS, DEPTH, SCRIPT, s, 0)
}

// The calls of a script that ends at the last byte.
pub fn calls(s: &[u8]) -> Option<(u64, usize)>
    ensures { Counted s.now result }
{
    let Some(end) = past(s) else {
        return None;
    };
    if end < s.len() {
        return None;
    }
    let n = formats_read::number(s, 0);
    Some((n.value, n.next))
}
