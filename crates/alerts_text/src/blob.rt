// The texts of an alert as they are searched: in capitals, and with accents folded, written one after the other into
// a lent buffer.
ghost use Rattle.std.specs.Prelude.{◌≡◌, ◌+◌, ◌-◌, ◌<◌, ◌≤◌, length, get_or, take, drop, ◌∷◌, ◌++◌};
ghost use Rattle.alerts.specs.Promises.Reduced.{road};
ghost use Rattle.alerts.specs.Text.{upper_byte};
ghost use Rattle.alerts.specs.Applies.{unaccented};
ghost use Rattle.alerts_lines.specs.Promises.Lines.{named_of, IsLine};
ghost use Rattle.alerts_lines.specs.Promises.Marks.{Marked};
ghost use Rattle.alerts_text.specs.Promises.Blob.{letter_of, Stepped, Written, Answered, fits_of, road_of};
ghost use Rattle.alerts_text.specs.Promises.Marked.{Roomy, MarkedOk, NamedFits, FirstFits, SettlesName};

use crate::lines::Settled;

// What a place of a text gives: a byte, and the next place.
#[derive(Drop)]
pub struct Step {
    pub byte: u8,
    pub next: usize,
}

// The plain capital of C3 and the byte 128 + k, or 0.
const PLAIN: [u8; 64] = [
    65, 65, 65, 0, 65, 0, 0, 67, 69, 69, 69, 69, 0, 73, 73, 73, 0, 0, 0, 79, 79, 0, 79, 0, 0, 85,
    85, 85, 85, 0, 0, 0, 65, 65, 65, 0, 65, 0, 0, 67, 69, 69, 69, 69, 0, 73, 73, 73, 0, 0, 0, 79,
    79, 0, 79, 0, 0, 85, 85, 85, 85, 0, 0, 0,
];

fn upper(b: u8) -> u8
    ensures { result ≡ upper_byte b }
{
    if b < 97 {
        return b;
    }
    if 122 < b {
        return b;
    }
    b - 32
}

// The plain capital of an accented letter's two bytes, or 0.
fn plain(a: u8, b: u8) -> u8
    ensures { result ≡ letter_of (unaccented a b) }
{
    if a != 0xc3 {
        return 0;
    }
    if b < 128 {
        return 0;
    }
    if 191 < b {
        return 0;
    }
    let k = (b - 128) as usize;
    PLAIN[k]
}

// A place that gives one byte, in capitals.
fn single(s: &[u8], i: usize) -> Step
    requires { i < length s.now }
    ensures { (result.byte ≡ upper_byte (get_or s.now i 0)) × (result.next ≡ i + 1) }
{
    Step {
        byte: upper(s[i]),
        next: i + 1,
    }
}

fn read(s: &[u8], i: usize, fold: bool) -> Step
    requires { i < length s.now }
    ensures { Stepped s.now i fold result.byte result.next }
{
    if !fold {
        return single(s, i);
    }
    let j = i + 1;
    if s.len() <= j {
        return single(s, i);
    }
    let letter = plain(s[i], s[j]);
    if letter == 0 {
        return single(s, i);
    }
    Step {
        byte: letter,
        next: j + 1,
    }
}

// The text s, in capitals or folded too, goes into out from `at` on.
pub fn write(out: &mut [u8], at: usize, s: &[u8], fold: bool) -> usize
    requires { at + length s.now ≤ length out.old }
    ensures { Written out.old out.new at s.now fold result }
{
    let mut i = 0;
    let mut k = at;
    while i < s.len() {
        let t = read(s, i, fold);
        out[k] = t.byte;
        k += 1;
        i = t.next;
    }
    k
}

// A space and then s go into out from `at` on.
fn write_next(out: &mut [u8], at: usize, s: &[u8], fold: bool) -> usize
    requires { at + length s.now < length out.old }
    ensures { Written out.old out.new at (32 ∷ s.now) fold result }
{
    out[at] = b' ';
    let next = at + 1;
    write(out, next, s, fold)
}

// Two texts with a space between go to the front of out.
pub fn write_both(out: &mut [u8], s: &[u8], t: &[u8], fold: bool) -> usize
    requires { length s.now + length t.now < length out.old }
    ensures { Written out.old out.new 0 (s.now ++ (32 ∷ t.now)) fold result }
{
    let a = write(out, 0, s, fold);
    write_next(out, a, t, fold)
}

// Marks the lines that the folded text which ends at n names.
fn mark_folded(named: &mut [u8], s: &[u8], n: usize)
    requires { (length named.old ≡ 32) × (n ≤ length s.now) }
    ensures { Marked (named_of (take n s.now)) named.old named.new }
{
    alerts_lines::mark_named(named, &s[..n]);
}

// Whether the folded text that ends at n may be about the line whose name ends at e.
fn ok_at(s: &[u8], n: usize, e: usize, named: &[u8]) -> bool
    requires { (length named.now ≡ 32) × (n ≤ e) × (e ≤ length s.now) }
    ensures { MarkedOk (take n s.now) named.now
        (take (e - n) (drop n s.now)) result }
{
    crate::lines::marked_ok(&s[..n], named, &s[n..e])
}

// Whether the alert's texts, which name the marked lines, may be about the line; out is what they are folded into.
pub fn named_fits(
    out: &mut [u8],
    named: &[u8],
    header: &[u8],
    description: &[u8],
    short: &[u8],
) -> bool
    requires { (length named.now ≡ 32) × Roomy header.now description.now short.now out.old }
    ensures { NamedFits named.now header.now description.now
        short.now result out.old out.new }
{
    let n = write_both(out, header, description, true);
    let e = write(out, n, short, false);
    ok_at(out, n, e, named)
}

// The same where the lines are yet to be marked.
pub fn first_fits(
    out: &mut [u8],
    named: &mut [u8],
    header: &[u8],
    description: &[u8],
    short: &[u8],
) -> bool
    requires { (length named.old ≡ 32) × Roomy header.now description.now short.now out.old }
    ensures { FirstFits header.now description.now short.now result
        out.old out.new named.old named.new }
{
    let n = write_both(out, header, description, true);
    mark_folded(named, out, n);
    let e = write(out, n, short, false);
    ok_at(out, n, e, named)
}

// The line that a text in capitals names, which ends at e.
fn own_at(s: &[u8], e: usize) -> usize
    requires { e ≤ length s.now }
    ensures { IsLine (take e s.now) result }
{
    alerts_lines::line_of(&s[..e])
}

// What the named lines say of the line; out is what its name is written into.
pub fn settle_name(out: &mut [u8], named: &[u8], short: &[u8]) -> Settled
    requires { (length named.now ≡ 32) × (length short.now ≤ length out.old) }
    ensures { SettlesName named.now short.now result out.old out.new }
{
    let e = write(out, 0, short, false);
    let own = own_at(out, e);
    crate::lines::settle(named, own)
}

// Whether the alert's texts may be about the line; out is what they are folded into.
pub fn text_fits(out: &mut [u8], header: &[u8], description: &[u8], short: &[u8]) -> bool
    requires { length header.now + length description.now + length short.now < length out.old }
    ensures { Answered out.old out.new result
        (fits_of header.now description.now short.now) }
{
    if short.len() == 0 {
        return true;
    }
    let mut named = [0u8; 32];
    first_fits(out, &mut named, header, description, short)
}

fn road_at(s: &[u8], n: usize) -> bool
    requires { n ≤ length s.now }
    ensures { result ≡ road (take n s.now) }
{
    crate::lines::road_traffic(&s[..n])
}

// Whether the alert is about road traffic; out is what its texts are written into.
pub fn road_alert(out: &mut [u8], header: &[u8], description: &[u8], cause: &[u8]) -> bool
    requires { length header.now + length description.now + length cause.now + 1 < length out.old }
    ensures { Answered out.old out.new result
        (road_of header.now description.now cause.now) }
{
    let a = write_both(out, header, description, false);
    let n = write_next(out, a, cause, false);
    road_at(out, n)
}
