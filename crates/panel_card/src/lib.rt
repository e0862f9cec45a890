// A card's call, with the overlay's length as a parameter: its questions in their order and the finished card, then
// zeros behind what was written and in the working buffers.
#![tactic(auto)]

use journey_card::Survey;
use panel_output::Ending;

mod table;

ghost use Rattle.std.specs.Prelude.{◌≡◌, [], ◌∷◌, ◌≤◌, ◌<◌, length};
ghost use Rattle.decode.specs.Sizes.{most_old};
ghost use Rattle.overlay_noted.specs.Promises.Noted.{places_length, Noted};
ghost use Rattle.alerts_apply.specs.Promises.Known.{Knows};
ghost use Rattle.journey_alerts.specs.Promises.Places.{most_text, Lent};
ghost use Rattle.formats_judge.specs.Judged.{judge_to};
ghost use Rattle.journey.specs.Card as form;
ghost use Rattle.panel.specs.Calls as calls;
ghost use Rattle.panel.specs.Given.{Given};
ghost use Rattle.panel.specs.Lengths.{sized};
ghost use Rattle.panel_output.specs.Promises.Ends.{Ends, Zeros};
ghost use Rattle.panel_card.specs.Promises.Card.{card_number, asked_number, AskedNotes};
ghost use Rattle.panel_card.specs.Promises.Card.{FinishesCard};

use table::{CARD, CARD_DEPTH, CARD_TABLE};

// What a card takes at most.
const MOST_CARD: usize = 65536;

// What stands in `known` where nothing is known of an alert yet.
const NOTHING: u32 = 0;

// The labels of a card, with room for one more.
const LABELS_LENGTH: usize = 1025;

// The end of a card, and the first of the questions 5 to 7 that it fails.
pub fn judge_card(card: &[u8]) -> Option<(usize, u32)>
    ensures { result ≡ judge_to form.card card.now 0 }
{
    formats_judge::judge_value(&CARD_TABLE, CARD_DEPTH, CARD, card, 0)
}

// The first of the questions 3 to 7 that an arriving card fails.
fn card_number(card: &[u8]) -> u32
    ensures { result ≡ card_number card.now }
{
    if MOST_CARD < card.len() {
        return 3;
    }
    let Some((p, n)) = judge_card(card) else {
        return 4;
    };
    if p < card.len() {
        return 4;
    }
    n
}

// The first of the questions 2 to 7 that an arriving card and the old overlay fail. Question 2 notes the places of
// feeds and trips.
fn asked(old: &[u8], card: &[u8], noted: &mut [u32]) -> u32
    requires { (length old.now ≤ most_old) × (length noted.old ≡ places_length) }
    ensures value { result ≡ asked_number old.now card.now }
    ensures asked_notes { AskedNotes old.now noted.new result }
{
    let Some(end) = overlay_open::open_noted(old, noted) else {
        return 2;
    };
    card_number(card)
}

// The finished card, from the start of `out` on: a first pass over its legs, and then the writing.
fn finish(
    old: &[u8],
    noted: &[u32],
    card: &[u8],
    out: &mut [u8],
    candidates: &mut [u16],
    met: &mut [u16],
    known: &mut [u32],
) -> Option<usize>
    requires noted { Noted old.now noted.now }
    requires lent { Lent old.now candidates.old met.old }
    requires card_nonzero { (0 < length card.now) × Knows most_text old.now known.old }
    ensures { FinishesCard old.now card.now out.old out.new result }
{
    // Where the labels begin and end.
    let mut froms = [0u32; LABELS_LENGTH];
    let mut tos = [0u32; LABELS_LENGTH];
    let legs = journey_places::card(card, 0).legs;
    let g = journey_survey::survey(
        card, legs, old, noted, candidates, met, known, &mut froms, &mut tos,
    );
    let seen: Survey = g.seen;
    journey_enrich::enrich(
        card,
        0,
        old,
        noted,
        seen,
        &froms,
        &tos,
        g.labels,
        out,
        Some(0),
    )
}

// The questions in their order, and the finished card in `out`. What question 7 asks of the finished card holds where
// the arriving card and the state are within it.
fn card_ending(
    n: usize,
    old: &[u8],
    card: &[u8],
    out: &mut [u8],
    candidates: &mut [u16],
    met: &mut [u16],
    noted: &mut [u32],
    known: &mut [u32],
) -> Ending
    requires { n ≤ most_old }
    ensures { Ends (sized n) old.now
        (calls.card card.now (length out.old)
        (length candidates.old ∷ length met.old ∷ length noted.old
        ∷ length known.old ∷ []))
        out.new result }
{
    let given = [
        old.len(),
        out.len(),
        candidates.len(),
        met.len(),
        noted.len(),
        known.len(),
    ];
    let due = [n, MOST_CARD, 256, 256, 8208, 4096];
    if !panel_output::same_lengths(&given, &due) {
        return Ending::Refused(1);
    }
    let number = asked(old, card, noted);
    if number != 0 {
        return Ending::Refused(number);
    }
    // Whatever a caller left there.
    slices::fill(known, NOTHING);
    let w = finish(old, noted, card, out, candidates, met, known);
    panel_output::ended(w, 8)
}

fn clear_work(candidates: &mut [u16], met: &mut [u16], noted: &mut [u32], known: &mut [u32])
    ensures { Zeros
        (candidates.old ∷ met.old ∷ noted.old ∷ known.old ∷ [])
        (candidates.new ∷ met.new ∷ noted.new ∷ known.new ∷ []) }
{
    slices::fill(candidates, 0);
    slices::fill(met, 0);
    slices::fill(noted, 0);
    slices::fill(known, 0);
}

// A CARD over an overlay of n bytes.
pub fn card(
    n: usize,
    old: &[u8],
    card: &[u8],
    out: &mut [u8],
    candidates: &mut [u16],
    met: &mut [u16],
    noted: &mut [u32],
    known: &mut [u32],
) -> u32
    requires { n ≤ most_old }
    ensures { Given (sized n) old.now
        (calls.card card.now (length out.old)
        (length candidates.old ∷ length met.old ∷ length noted.old
        ∷ length known.old ∷ []))
        result out.new
        (candidates.new ∷ met.new ∷ noted.new ∷ known.new ∷ []) }
{
    let e = card_ending(n, old, card, out, candidates, met, noted, known);
    clear_work(candidates, met, noted, known);
    panel_output::finish(out, e)
}
