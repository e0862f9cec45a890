// The alerts of the overlay b that apply to a leg of a card: whether there is one, and their labels, noted.
#![tactic(auto)]

ghost use Rattle.std.specs.Prelude.{◌≡◌, ◌≤◌, length, get_or};
ghost use Rattle.decode.specs.Sizes.{most_old};
ghost use Rattle.alerts_search.specs.Promises.Marks.{most_marks};
ghost use Rattle.alerts_apply.specs.Promises.Known.{Knows};
ghost use Rattle.overlay_noted.specs.Promises.Noted.{Noted};
ghost use Rattle.journey_labels.specs.Promises.Labels.{Inside, SoundLabels};
ghost use Rattle.journey_alerts.specs.Promises.Texts.{TextsIn, LegTextsAt};
ghost use Rattle.journey_alerts.specs.Promises.Places.{most_text, Lent, Prepared};
ghost use Rattle.journey_alerts.specs.Promises.Alerts.{LegApplies, LabelAdded, AlertMet, EachMet, AlertsAtMet};
ghost use Rattle.journey_alerts.specs.Promises.Alerts.{LegAlerted};

use formats::Span;

// The alerts of a feed, and what the texts of one are written into.
const MOST_ALERTS: usize = 256;

const MOST_TEXT: usize = 2626;

// The texts of a leg that alerts are asked by.
#[derive(Clone, Copy)]
pub struct LegTexts {
    pub mode: Span,
    pub short: Span,
    pub route: Span,
    pub trip: Span,
    pub from: Span,
    pub to: Span,
}

// Whether an alert applies, and how many labels are noted.
#[derive(Drop)]
pub struct LegAlerts {
    pub hit: bool,
    pub labels: usize,
}

fn texts(card: &[u8], at: usize) -> LegTexts
    ensures { LegTextsAt card.now at result }
{
    let p = journey_places::leg(card, at);
    LegTexts {
        mode: formats_read::text(card, at),
        short: formats_read::text(card, p.short),
        route: formats_read::text(card, p.route),
        trip: formats_read::text(card, p.trip),
        from: formats_read::text(card, p.from),
        to: formats_read::text(card, p.to),
    }
}

// The numbers of the leg's candidates among the alerts at p, and the places of these alerts; how many candidates there
// are.
fn prepare(
    card: &[u8],
    t: LegTexts,
    old: &[u8],
    p: usize,
    candidates: &mut [u16],
    met: &mut [u16],
    places: &mut [u32],
) -> usize
    requires texts_in { TextsIn card.now t }
    requires candidates_len { (length candidates.old ≡ 256) × (length met.old ≡ most_marks) × (length places.old ≡ 256)
        × (length old.now ≤ most_old) }
    ensures { Prepared card.now t old.now p result candidates.new
        places.new }
{
    let trip = t.trip;
    let route = t.route;
    let from = t.from;
    let to = t.to;
    let a = trip.from;
    let c = trip.to;
    let d = route.from;
    let e = route.to;
    let f = from.from;
    let g = from.to;
    let h = to.from;
    let i = to.to;
    alerts_search::places::note_alerts(old, p, places);
    alerts_search::candidates::find(
        old,
        p,
        &card[a..c],
        &card[d..e],
        &card[f..g],
        &card[h..i],
        candidates,
        met,
    )
}

// Whether the alert at p applies to the leg; `text` is what its texts are written into, and `slot` says where its words
// are in `known`.
fn applies(
    text: &mut [u8],
    known: &mut [u32],
    slot: usize,
    card: &[u8],
    t: LegTexts,
    old: &[u8],
    p: usize,
) -> bool
    requires texts_in { TextsIn card.now t }
    requires knows { Knows (length text.old) old.now known.old }
    ensures { LegApplies card.now t old.now p (length text.old) result
        known.new }
{
    let mode = t.mode;
    let short = t.short;
    let route = t.route;
    let trip = t.trip;
    let from = t.from;
    let to = t.to;
    let a = mode.from;
    let c = mode.to;
    let d = short.from;
    let e = short.to;
    let f = route.from;
    let g = route.to;
    let h = trip.from;
    let i = trip.to;
    let j = from.from;
    let k = from.to;
    let l = to.from;
    let m = to.to;
    alerts_apply::known::applies_known(
        text,
        known,
        slot,
        old,
        p,
        &card[h..i],
        &card[f..g],
        &card[d..e],
        &card[j..k],
        &card[l..m],
        &card[a..c],
    )
}

// A label is noted unless it is empty, and as long as there is room: how many there are then.
fn note_label(
    old: &[u8],
    froms: &mut [u32],
    tos: &mut [u32],
    n: usize,
    from: usize,
    to: usize,
) -> usize
    requires sound_labels { SoundLabels old.now froms.old tos.old n }
    requires inside { Inside old.now (from, to) × (length old.now ≤ most_old) }
    ensures { LabelAdded old.now froms.old tos.old n (from, to)
        froms.new tos.new result }
{
    if to <= from {
        return n;
    }
    if 1024 < n {
        return n;
    }
    journey_labels::note(old, froms, tos, n, from, to)
}

// One alert more, at p.
fn meet_alert(
    text: &mut [u8],
    known: &mut [u32],
    slot: usize,
    card: &[u8],
    t: LegTexts,
    old: &[u8],
    p: usize,
    froms: &mut [u32],
    tos: &mut [u32],
    h: LegAlerts,
) -> LegAlerts
    requires texts_in { TextsIn card.now t }
    requires sound_labels { SoundLabels old.now froms.old tos.old h.labels × (length old.now ≤ most_old) }
    requires knows { Knows (length text.old) old.now known.old }
    ensures { AlertMet card.now t old.now p (length text.old)
        froms.old tos.old h froms.new tos.new result known.new }
{
    if applies(text, known, slot, card, t, old, p) {
        let l = alerts_apply::texts::label(old, p);
        return LegAlerts {
            hit: true,
            labels: note_label(old, froms, tos, h.labels, l.from, l.to),
        };
    }
    h
}

fn wide(x: u16) -> usize
    ensures { result ≡ x }
{
    x as usize
}

// The number at k, and the place at i; past the end it is 0.
fn number_at(a: &[u16], k: usize) -> usize
    ensures { result ≡ get_or a.now k 0 }
{
    if a.len() <= k {
        return 0;
    }
    wide(a[k])
}

fn place_at(a: &[u32], i: usize) -> usize
    ensures { result ≡ get_or a.now i 0 }
{
    if a.len() <= i {
        return 0;
    }
    slices::word(a, i)
}

// Where the words of an alert are, by the place of its feed's alerts and its number: those of one feed share none.
fn slot_of(p: usize, number: usize) -> usize {
    (p % 1024 + number % 1024) % 1024
}

// The candidates one after another, among the alerts at `from`.
fn each_candidate(
    card: &[u8],
    t: LegTexts,
    old: &[u8],
    from: usize,
    candidates: &[u16],
    n: usize,
    places: &[u32],
    text: &mut [u8],
    known: &mut [u32],
    froms: &mut [u32],
    tos: &mut [u32],
    h: LegAlerts,
) -> LegAlerts
    requires texts_in { TextsIn card.now t }
    requires sound_labels { SoundLabels old.now froms.old tos.old h.labels × (length old.now ≤ most_old) }
    requires knows { Knows (length text.old) old.now known.old }
    ensures { EachMet card.now t old.now candidates.now n
        places.now n
        (length text.old) froms.old tos.old h
        froms.new tos.new result known.new }
{
    let mut k = 0;
    let mut r = h;
    while k < n {
        let i = number_at(candidates, k);
        let p = place_at(places, i);
        r = meet_alert(
            text,
            known,
            slot_of(from, i),
            card,
            t,
            old,
            p,
            froms,
            tos,
            r,
        );
        k += 1;
    }
    r
}

// The alerts at p, over places and a text of their own.
fn alerts_at(
    card: &[u8],
    t: LegTexts,
    old: &[u8],
    p: usize,
    candidates: &mut [u16],
    met: &mut [u16],
    known: &mut [u32],
    froms: &mut [u32],
    tos: &mut [u32],
    n: usize,
) -> LegAlerts
    requires texts_in { TextsIn card.now t }
    requires lent { Lent old.now candidates.old met.old }
    requires sound_labels { SoundLabels old.now froms.old tos.old n × Knows most_text old.now known.old }
    ensures { AlertsAtMet card.now t old.now p most_text
        froms.old tos.old n froms.new tos.new result known.new }
{
    let mut places = [0u32; MOST_ALERTS];
    let mut text = [0u8; MOST_TEXT];
    let c = prepare(card, t, old, p, candidates, met, &mut places);
    let h = LegAlerts {
        hit: false,
        labels: n,
    };
    each_candidate(
        card, t, old, p, candidates, c, &places, &mut text, known, froms, tos, h,
    )
}

// The alerts of its trip's feed that apply to the leg at `at`: their labels go behind the n that are noted. `known` is
// what is known of alerts, of whatever feed.
pub fn leg(
    card: &[u8],
    at: usize,
    old: &[u8],
    noted: &[u32],
    candidates: &mut [u16],
    met: &mut [u16],
    known: &mut [u32],
    froms: &mut [u32],
    tos: &mut [u32],
    n: usize,
) -> LegAlerts
    requires noted { Noted old.now noted.now }
    requires lent { Lent old.now candidates.old met.old }
    requires sound_labels { SoundLabels old.now froms.old tos.old n × Knows most_text old.now known.old }
    ensures { LegAlerted card.now at old.now froms.old tos.old n
        froms.new tos.new result known.new }
{
    let t = texts(card, at);
    let id = t.trip;
    let f = id.from;
    let e = id.to;
    let Some(p) = overlay_resolve::alerts(old, noted, &card[f..e]) else {
        return LegAlerts {
            hit: false,
            labels: n,
        };
    };
    alerts_at(card, t, old, p, candidates, met, known, froms, tos, n)
}
