// The calls of a script that write no overlay, each with its number before its output: a card, and a report.
#![tactic(auto)]

ghost use Rattle.std.specs.Prelude.{◌≡◌, ◌≤◌, ◌<◌, length};
ghost use Rattle.decode.specs.Sizes.{most_old};
ghost use Rattle.panel.specs.Calls as calls;
ghost use Rattle.panel.specs.Lengths.{sized, card_work};
ghost use Rattle.replay_script.specs.Script.{within};
ghost use Rattle.replay_writing.specs.Promises.Ran.{Sound};
ghost use Rattle.replay_reading.specs.Promises.Told.{ToldReport, lengths_of, ReadsCardWork, CardFits, Answers};
ghost use Rattle.replay_reading.specs.Promises.Told.{ToldCardOf, ToldCard};

use replay_script::Asked;

// The published lengths of a card's working buffers: of numbers, of places, of what is known.
const NUMBERS: usize = 256;

const PLACES: usize = 8208;

const KNOWN: usize = 4096;

// A call's number as a byte.
pub fn octet(k: u32) -> u8
    ensures { k < 256 → result ≡ k }
{
    (k % 256) as u8
}

// A REPORT: its number at p, and its output behind it.
pub fn report(n: usize, q: Asked, s: &[u8], old: &[u8], out: &mut [u8], p: usize) -> Option<usize>
    requires { Sound n s.now q }
    ensures { ToldReport (sized n) s.now q old.now out.old p out.new
        result }
{
    if out.len() <= p {
        return None;
    }
    let size = q.out;
    let from = p + 1;
    if out.len() - from < size {
        return None;
    }
    let to = from + size;
    let feed = q.feed;
    let feed_from = feed.from;
    let feed_to = feed.to;
    let k = panel_report::report(n, old, &s[feed_from..feed_to], &mut out[from..to]);
    out[p] = octet(k);
    Some(to)
}

// The lengths of a card's working buffers.
#[derive(Clone, Copy)]
struct CardWork {
    candidates: usize,
    met: usize,
    noted: usize,
    known: usize,
}

fn card_work(s: &[u8], at: usize) -> CardWork
    ensures { ReadsCardWork s.now at result }
{
    CardWork {
        candidates: replay_script::length_at(s, at, 0),
        met: replay_script::length_at(s, at, 1),
        noted: replay_script::length_at(s, at, 2),
        known: replay_script::length_at(s, at, 3),
    }
}

// Whether they are parts of the published ones.
fn is_lent(w: CardWork) -> bool
    ensures { result ≡ within (lengths_of w) card_work }
{
    (w.candidates <= NUMBERS) & ((w.met <= NUMBERS) & ((w.noted <= PLACES) & (w.known <= KNOWN)))
}

// A card on parts of lent buffers.
fn run_card(
    n: usize,
    w: CardWork,
    old: &[u8],
    card: &[u8],
    out: &mut [u8],
    candidates: &mut [u16],
    met: &mut [u16],
    noted: &mut [u32],
    known: &mut [u32],
) -> u32
    requires n_le_most_old { n ≤ most_old }
    requires card_fits { CardFits w (length candidates.old) (length met.old) (length noted.old) (length known.old) }
    ensures { Answers (sized n) old.now
        (calls.card card.now (length out.old) (lengths_of w)) result out.new }
{
    let a = w.candidates;
    let b = w.met;
    let c = w.noted;
    let d = w.known;
    panel_card::card(
        n,
        old,
        card,
        out,
        &mut candidates[..a],
        &mut met[..b],
        &mut noted[..c],
        &mut known[..d],
    )
}

// A card on working buffers of its own, of the published lengths.
fn run_card_here(n: usize, w: CardWork, old: &[u8], card: &[u8], out: &mut [u8]) -> u32
    requires n_le_most_old { n ≤ most_old }
    requires card_fits { CardFits w 256 256 8208 4096 }
    ensures { Answers (sized n) old.now
        (calls.card card.now (length out.old) (lengths_of w)) result out.new }
{
    let mut candidates = [0u16; NUMBERS];
    let mut met = [0u16; NUMBERS];
    let mut noted = [0u32; PLACES];
    let mut known = [0u32; KNOWN];
    run_card(
        n,
        w,
        old,
        card,
        out,
        &mut candidates,
        &mut met,
        &mut noted,
        &mut known,
    )
}

// A card whose working buffers are lent: its number at p, and its output behind it.
fn card_of(
    n: usize,
    q: Asked,
    w: CardWork,
    s: &[u8],
    old: &[u8],
    out: &mut [u8],
    p: usize,
) -> Option<usize>
    requires sound { Sound n s.now q }
    requires card_fits { CardFits w 256 256 8208 4096 }
    ensures { ToldCardOf (sized n) s.now q (lengths_of w) old.now out.old p
        out.new result }
{
    if out.len() <= p {
        return None;
    }
    let size = q.out;
    let from = p + 1;
    if out.len() - from < size {
        return None;
    }
    let to = from + size;
    let input = q.input;
    let card_from = input.from;
    let card_to = input.to;
    let k = run_card_here(n, w, old, &s[card_from..card_to], &mut out[from..to]);
    out[p] = octet(k);
    Some(to)
}

// A CARD: its number at p, and its output behind it; Full, too, where it asks for longer working buffers than the
// published ones.
pub fn card(n: usize, q: Asked, s: &[u8], old: &[u8], out: &mut [u8], p: usize) -> Option<usize>
    requires { Sound n s.now q }
    ensures { ToldCard (sized n) s.now q old.now out.old p out.new
        result }
{
    let w = card_work(s, q.work);
    if is_lent(w) {
        return card_of(n, q, w, s, old, out, p);
    }
    None
}
