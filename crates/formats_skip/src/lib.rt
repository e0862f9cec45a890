// Quick passes over a value that is known to stand at a place: nothing is judged. They are total: where no such value
// stands, they answer something.
#![tactic(auto)]

ghost use Rattle.std.specs.Prelude.{◌≡◌, ◌+◌, ◌≤◌, length};
ghost use Rattle.formats.specs.Class.{any};
ghost use Rattle.formats.specs.Format.{Format, number, text, float, list, optional};
ghost use Rattle.formats_skip.specs.Promises.Passes.{Passes, PassesNear};

// A number, group by group: near the end of the bytes.
fn past_long(s: &[u8], at: usize) -> usize
    ensures { Passes (number 0 0) s.now at result }
{
    for p in at..s.len() {
        if s[p] < 128 {
            return p + 1;
        }
    }
    s.len().max(at)
}

// A number where ten bytes are left, which is room for the longest: no bound is tested.
pub fn past_number_inside(s: &[u8], at: usize) -> usize
    requires { at + 10 ≤ length s.now }
    ensures { PassesNear 10 (number 0 0) s.now at result }
{
    for k in 0..9 {
        if s[at + k] < 128 {
            return at + k + 1;
        }
    }
    at + 10
}

// A number, signed or small or neither.
pub fn past_number(s: &[u8], at: usize) -> usize
    ensures { Passes (number 0 0) s.now at result }
{
    if s.len() < 10 || s.len() - 10 < at {
        return past_long(s, at);
    }
    past_number_inside(s, at)
}

// An optional number where eleven bytes are left.
pub fn past_optional_inside(s: &[u8], at: usize) -> usize
    requires { at + 11 ≤ length s.now }
    ensures { PassesNear 11 (optional (number 0 0)) s.now at result }
{
    if s[at] == 1 {
        return past_number_inside(s, at + 1);
    }
    at + 1
}

// An optional value, by what passes over one that is there.
fn past_optional<F: FnOnce(&[u8], usize) -> usize>(s: &[u8], at: usize, past: F) -> usize
    requires { F.IsAlwaysCallable past }
    ensures { (f : Format) → ((t : _) (p : _) (r : _) → F.post past t p r → Passes f t.now p r)
        → Passes (optional f) s.now at result }
{
    match s.get(at) {
        None => at,
        Some(1) => past(s, at + 1),
        Some(_) => at + 1,
    }
}

// An optional number, signed or not.
pub fn past_optional_number(s: &[u8], at: usize) -> usize
    ensures { Passes (optional (number 0 0)) s.now at result }
{
    past_optional(s, at, past_number)
}

// A text. Most lengths have one group: that case stands in front.
pub fn past_text(s: &[u8], at: usize) -> usize
    ensures { Passes (text 0 any) s.now at result }
{
    if s.len() <= at {
        return at;
    }
    let n = usize::from(s[at]);
    if n < 128 {
        if s.len() - at <= n {
            return at;
        }
        return at + 1 + n;
    }
    formats_read::text(s, at).to
}

pub fn past_optional_text(s: &[u8], at: usize) -> usize
    ensures { Passes (optional (text 0 any)) s.now at result }
{
    past_optional(s, at, past_text)
}

pub fn past_float(s: &[u8], at: usize) -> usize
    ensures { Passes float s.now at result }
{
    if s.len() < at || s.len() - at < 8 {
        return at;
    }
    at + 8
}

pub fn past_optional_float(s: &[u8], at: usize) -> usize
    ensures { Passes (optional float) s.now at result }
{
    past_optional(s, at, past_float)
}

// A list of texts.
pub fn past_texts(s: &[u8], at: usize) -> usize
    ensures { Passes (list 0 (text 0 any)) s.now at result }
{
    let n = formats_read::number(s, at);
    let mut p = n.next;
    for _ in 0..n.value {
        p = past_text(s, p);
    }
    p
}
