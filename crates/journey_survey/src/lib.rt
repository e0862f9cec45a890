// The first pass over the legs of a card: what decides its head, and the labels of the alerts that apply.
#![tactic(auto)]

ghost use Rattle.std.specs.Prelude.{◌≡◌, length};
ghost use Rattle.overlay_noted.specs.Promises.Noted.{Noted};
ghost use Rattle.journey_labels.specs.Promises.Labels.{labels_length, SoundLabels};
ghost use Rattle.alerts_apply.specs.Promises.Known.{Knows};
ghost use Rattle.journey_alerts.specs.Promises.Places.{most_text, Lent};
ghost use Rattle.journey_survey.specs.Promises.Surveyed.{Surveyed};
ghost use Rattle.journey_survey.specs.Promises.Legs.{MeetsLeg, LegSurveyed, EachSurveyed};

use journey_card::Survey;
use journey_leg::LegRealtime;

// What was gathered, and how many labels are noted.
#[derive(Drop)]
pub struct CardSurvey {
    pub seen: Survey,
    pub labels: usize,
}

// One transit leg more, at `at`, by what look-ups gave for it and whether an alert applies.
fn one_more(card: &[u8], at: usize, seen: Survey, r: LegRealtime, hit: bool) -> Survey
    ensures { MeetsLeg card.now at seen r hit result }
{
    let p = journey_places::leg(card, at).realtime;
    let departure = formats_read::optional_signed(card, p);
    let q = formats_skip::past_optional_number(card, p);
    let arrival = formats_read::optional_signed(card, q);
    journey_card::meet(seen, r, hit, departure, arrival)
}

// One leg more: a walk adds nothing.
fn leg(
    card: &[u8],
    at: usize,
    old: &[u8],
    noted: &[u32],
    candidates: &mut [u16],
    met: &mut [u16],
    known: &mut [u32],
    froms: &mut [u32],
    tos: &mut [u32],
    c: CardSurvey,
) -> CardSurvey
    requires noted { Noted old.now noted.now }
    requires lent { Lent old.now candidates.old met.old }
    requires sound_labels { SoundLabels old.now froms.old tos.old c.labels × Knows most_text old.now known.old }
    ensures { LegSurveyed card.now at old.now froms.old tos.old c
        froms.new tos.new result known.new }
{
    if card.len() <= at {
        return c;
    }
    if formats::tag(card, at) == 1 {
        let p = at + 1;
        let r = journey_finish::look(card, p, old, noted);
        let a = journey_alerts::leg(
            card, p, old, noted, candidates, met, known, froms, tos, c.labels,
        );
        let seen = c.seen;
        return CardSurvey {
            seen: one_more(card, p, seen, r, a.hit),
            labels: a.labels,
        };
    }
    c
}

// The n legs from `at` on.
fn each_leg(
    card: &[u8],
    at: usize,
    n: u64,
    old: &[u8],
    noted: &[u32],
    candidates: &mut [u16],
    met: &mut [u16],
    known: &mut [u32],
    froms: &mut [u32],
    tos: &mut [u32],
) -> CardSurvey
    requires noted { Noted old.now noted.now }
    requires lent { Lent old.now candidates.old met.old }
    requires froms_len { (length froms.old ≡ labels_length) × (length tos.old ≡ labels_length)
        × Knows most_text old.now known.old }
    ensures { EachSurveyed card.now at n old.now froms.new
        tos.new result }
{
    let mut p = at;
    let mut left = n;
    let mut c = CardSurvey {
        seen: journey_card::begin(),
        labels: 0,
    };
    while 0 < left {
        c = leg(card, p, old, noted, candidates, met, known, froms, tos, c);
        p = journey_places::past_leg(card, p);
        left -= 1;
    }
    c
}

// The list of legs at `at`.
pub fn survey(
    card: &[u8],
    at: usize,
    old: &[u8],
    noted: &[u32],
    candidates: &mut [u16],
    met: &mut [u16],
    known: &mut [u32],
    froms: &mut [u32],
    tos: &mut [u32],
) -> CardSurvey
    requires noted { Noted old.now noted.now }
    requires lent { Lent old.now candidates.old met.old }
    requires froms_len { (length froms.old ≡ labels_length) × (length tos.old ≡ labels_length)
        × Knows most_text old.now known.old }
    ensures { Surveyed card.now at old.now froms.new tos.new result }
{
    let n = formats_read::number(card, at);
    each_leg(
        card, n.next, n.value, old, noted, candidates, met, known, froms, tos,
    )
}
