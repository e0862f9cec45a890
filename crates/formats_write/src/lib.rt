// Writers into a lent slice, from its start on, with a room test: each takes the next place and answers the place
// past what it wrote, or that there is no room. So a value's writing is a straight line of calls, with no early
// return.
#![tactic(auto)]

ghost use Rattle.std.specs.Prelude.{◌≡◌, List, ℕ, Some, None, [], ◌∷◌, ◌<◌, ◌≤◌, length};
ghost use Rattle.std.proofs.Math.Seq.{slice};
ghost use Rattle.formats.specs.Number.{groups_w, number_w, little_w, zig};
ghost use Rattle.formats.specs.Promises.Number.{top};
ghost use Rattle.formats.specs.Format.{number, signed, float};
ghost use Rattle.formats_write.specs.Promises.Adds.{Adds};
ghost use Rattle.formats_write.specs.Promises.Given.{optional_w, given_number, given_signed, given_text, text_w};
ghost use Rattle.formats_write.specs.Promises.Given.{Inside};

use formats::Span;

pub fn byte(out: &mut [u8], w: Option<usize>, b: u8) -> Option<usize>
    ensures { Adds out.old w out.new result (b ∷ []) }
{
    let at = w?;
    // By an index: a proof loses what `out` holds where `get_mut` and `?` write.
    if at < out.len() {
        out[at] = b;
        return Some(at + 1);
    }
    None
}

// A number of at most k + 1 groups.
fn groups(k: u32, out: &mut [u8], w: Option<usize>, n: u64) -> Option<usize>
    requires { n < top k }
    ensures { Adds out.old w out.new result (groups_w k n) }
{
    if n < 128 {
        return byte(out, w, n as u8);
    }
    let q = byte(out, w, (128 + n % 128) as u8);
    groups(k - 1, out, q, n / 128)
}

pub fn number(out: &mut [u8], w: Option<usize>, n: u64) -> Option<usize>
    ensures { Adds out.old w out.new result (number_w n) }
{
    groups(9, out, w, n)
}

pub fn signed(out: &mut [u8], w: Option<usize>, z: i64) -> Option<usize>
    ensures { Adds out.old w out.new result (number_w (zig z)) }
{
    number(out, w, integers::to_zigzag(z))
}

// The low k bytes of n, low first.
fn little(k: u32, out: &mut [u8], w: Option<usize>, n: u64) -> Option<usize>
    ensures { Adds out.old w out.new result (little_w k n) }
{
    if k == 0 {
        return w;
    }
    let q = byte(out, w, (n % 256) as u8);
    little(k - 1, out, q, n / 256)
}

// A float, given by its 64 bits.
pub fn float(out: &mut [u8], w: Option<usize>, bits: u64) -> Option<usize>
    ensures { Adds out.old w out.new result (little_w 8 bits) }
{
    little(8, out, w, bits)
}

// The bytes of s from `from` up to `to`: of a value that stands there, its writing.
pub fn stretch(out: &mut [u8], w: Option<usize>, s: &[u8], from: usize, to: usize) -> Option<usize>
    ensures { from ≤ to → to ≤ length s.now
        → Adds out.old w out.new result (slice from to s.now) }
{
    let at = w?;
    let bytes = s.get(from..to)?;
    if out.len() < at {
        return None;
    }
    let n = bytes.len();
    if out.len() - at < n {
        return None;
    }
    slices::copy(out, at, bytes);
    Some(at + n)
}

// The bytes of s from `from` up to `to`, as a text: their number first.
pub fn text(out: &mut [u8], w: Option<usize>, s: &[u8], from: usize, to: usize) -> Option<usize>
    ensures { from ≤ to → to ≤ length s.now
        → Adds out.old w out.new result (text_w (slice from to s.now)) }
{
    if to < from {
        return None;
    }
    let q = number(out, w, (to - from) as u64);
    stretch(out, q, s, from, to)
}

// A byte that says whether a value is there, and the value as `write` puts it.
fn optional<T, F: FnOnce(&mut [u8], Option<usize>, T) -> Option<usize>>(
    out: &mut [u8],
    w: Option<usize>,
    v: Option<T>,
    write: F,
) -> Option<usize>
    requires { F.IsAlwaysCallable write }
    ensures absent { v ≡ None → Adds out.old w out.new result (0 ∷ []) }
    ensures present { (x : _) → v ≡ Some x → (y : List ℕ)
        → ((o : _) (q : _) (r : _) (n : _) → F.post write o q x r n → Adds o.now q n.now r y)
        → Adds out.old w out.new result (1 ∷ y) }
{
    match v {
        None => byte(out, w, 0),
        Some(x) => {
            let q = byte(out, w, 1);
            write(out, q, x)
        }
    }
}

pub fn optional_number(out: &mut [u8], w: Option<usize>, v: Option<u64>) -> Option<usize>
    ensures { Adds out.old w out.new result (optional_w number_w (given_number v)) }
{
    optional(out, w, v, number)
}

pub fn optional_signed(out: &mut [u8], w: Option<usize>, v: Option<i64>) -> Option<usize>
    ensures { Adds out.old w out.new result
        (optional_w (λ z. number_w (zig z)) (given_signed v)) }
{
    optional(out, w, v, signed)
}

// A float that may be missing, given by its 64 bits.
pub fn optional_float(out: &mut [u8], w: Option<usize>, v: Option<u64>) -> Option<usize>
    ensures { Adds out.old w out.new result (optional_w (little_w 8) (given_number v)) }
{
    optional(out, w, v, float)
}

pub fn optional_text(out: &mut [u8], w: Option<usize>, s: &[u8], v: Option<Span>) -> Option<usize>
    ensures { Inside s.now v → Adds out.old w out.new result
        (optional_w text_w (given_text s.now v)) }
{
    optional(out, w, v, |out, q, t: Span| text(out, q, s, t.from, t.to))
}
