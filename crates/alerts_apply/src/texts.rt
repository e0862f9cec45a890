// An alert's texts: its label, whether they may be about the leg's line, whether they are about road traffic.
ghost use Rattle.std.specs.Prelude.{◌≡◌, ◌+◌, ltb, length};
ghost use Rattle.alerts_text.specs.Promises.Marked.{Roomy};
ghost use Rattle.alerts_apply.specs.Promises.Texts.{Shown, Given, Labelled, Road};
ghost use Rattle.alerts_apply.specs.Promises.Words.{road_word, FitsAgain, FitsKnown, Fits, RoadKnown};

use alerts_text::blob::{first_fits, named_fits, settle_name};
use alerts_text::lines::Settled;
use alerts_text::word::{gather, spread};
use formats::Span;
use formats_skip::past_optional_text;

// The part that an optional text has, an empty one where it is absent.
fn text_at(s: &[u8], at: usize) -> Span
    ensures { Shown s.now at result.from result.to }
{
    if s.len() <= at {
        return Span { from: 0, to: 0 };
    }
    if s[at] == 1 {
        return formats_read::text(s, at + 1);
    }
    Span { from: 0, to: 0 }
}

fn is_given(s: &[u8], at: usize) -> bool
    ensures { Given s.now at result }
{
    if s.len() <= at {
        return false;
    }
    s[at] == 1
}

// The label of the alert at `at`: its header, or else its description's first 120 characters.
pub fn label(s: &[u8], at: usize) -> Span
    ensures { Labelled s.now at result.from result.to }
{
    let present = is_given(s, at);
    let header = text_at(s, at);
    let description = text_at(s, past_optional_text(s, at));
    let h = header.from;
    let i = header.to;
    let d = description.from;
    let e = description.to;
    let n = alerts_label::label(present, &s[h..i], &s[d..e]).len();
    if present {
        return Span { from: h, to: h + n };
    }
    Span { from: d, to: d + n }
}

// Whether three texts and a byte are shorter than a buffer.
fn has_room(room: usize, a: usize, b: usize, c: usize) -> bool
    ensures { result ≡ ltb (a + b + c + 1) room }
{
    if room <= a {
        return false;
    }
    let x = room - a;
    if x <= b {
        return false;
    }
    let y = x - b;
    if y <= c {
        return false;
    }
    1 < y - c
}

// The text test where the lines that the texts name are known, as bits of a word.
fn fits_again(text: &mut [u8], word: u32, header: &[u8], description: &[u8], short: &[u8]) -> bool
    requires { Roomy header.now description.now short.now text.old }
    ensures { FitsAgain word header.now description.now short.now result
        text.old text.new }
{
    let mut named = [0u8; 32];
    spread(&mut named, word);
    match settle_name(text, &named, short) {
        Settled::Right => true,
        Settled::Wrong => false,
        Settled::Open => named_fits(text, &named, header, description, short),
    }
}

// The lines are marked once; `words` is what is known of the alert.
fn fits_known(
    text: &mut [u8],
    words: &mut [u32],
    header: &[u8],
    description: &[u8],
    short: &[u8],
) -> bool
    requires { (length words.old ≡ 3) × Roomy header.now description.now short.now text.old }
    ensures { FitsKnown header.now description.now short.now result
        text.old text.new words.old words.new }
{
    if words[1] == 1 {
        return fits_again(text, words[2], header, description, short);
    }
    let mut named = [0u8; 32];
    let r = first_fits(text, &mut named, header, description, short);
    words[2] = gather(&named);
    words[1] = 1;
    r
}

// Whether the alert's texts may be about the line; `text` is what they are folded into.
pub fn text_fits(text: &mut [u8], words: &mut [u32], s: &[u8], at: usize, short: &[u8]) -> bool
    requires { length words.old ≡ 3 }
    ensures { Fits s.now at short.now result text.old text.new
        words.old words.new }
{
    if short.len() == 0 {
        return true;
    }
    let h = text_at(s, at);
    let d = text_at(s, past_optional_text(s, at));
    let a = h.from;
    let b = h.to;
    let c = d.from;
    let e = d.to;
    if !has_room(text.len(), b - a, e - c, short.len()) {
        return true;
    }
    fits_known(text, words, &s[a..b], &s[c..e], short)
}

// Whether the alert is about road traffic; `text` is what its texts are written into.
fn road_alert(text: &mut [u8], s: &[u8], at: usize) -> bool
    ensures { Road s.now at result text.old text.new }
{
    let second = past_optional_text(s, at);
    let h = text_at(s, at);
    let d = text_at(s, second);
    let k = text_at(s, past_optional_text(s, second));
    let a = h.from;
    let b = h.to;
    let c = d.from;
    let e = d.to;
    let f = k.from;
    let g = k.to;
    if !has_room(text.len(), b - a, e - c, g - f) {
        return true;
    }
    alerts_text::blob::road_alert(text, &s[a..b], &s[c..e], &s[f..g])
}

fn road_word(road: bool) -> u32
    ensures { result ≡ road_word road }
{
    if road { 2 } else { 1 }
}

// The same, asked once; `words` is what is known of the alert.
pub fn road_known(text: &mut [u8], words: &mut [u32], s: &[u8], at: usize) -> bool
    requires { length words.old ≡ 3 }
    ensures { RoadKnown s.now at result text.old text.new words.old
        words.new }
{
    if words[0] == 1 {
        return false;
    }
    if words[0] == 2 {
        return true;
    }
    let r = road_alert(text, s, at);
    words[0] = road_word(r);
    r
}
