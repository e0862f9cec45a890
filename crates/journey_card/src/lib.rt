// The card: what a first pass over its legs gathers, and its head written anew.
#![tactic(auto)]

ghost use Rattle.std.specs.Prelude.{◌≡◌, cond, ◌||◌, ◌<◌, length};
ghost use Rattle.basics.specs.Options.{given_or};
ghost use Rattle.formats_write.specs.Promises.Adds.{Adds};
ghost use Rattle.formats_write.specs.Promises.Given.{given_signed};
ghost use Rattle.journey.specs.Enrich as enrich;
ghost use Rattle.journey_card.specs.Promises.Survey.{nothing, gathered_of, late_of, meets, status_by};
ghost use Rattle.journey_card.specs.Promises.Head.{Small, Minus, ReadsTimes, PutsHead, head_w};

use journey_leg::LegRealtime;

// A card's departure and arrival.
#[derive(Clone, Copy)]
struct CardTimes {
    departure: i64,
    arrival: i64,
}

// What decides the status: a trip cancelled, late, an alert that applies, realtime; whether a transit leg was met; the
// first one's realtime departure, and the last one's realtime arrival.
#[derive(Clone, Copy)]
pub struct Survey {
    pub cancel: bool,
    pub delay: bool,
    pub alert: bool,
    pub told: bool,
    pub began: bool,
    pub first: Option<i64>,
    pub last: Option<i64>,
}

pub fn begin() -> Survey
    ensures { gathered_of result ≡ nothing }
{
    Survey {
        cancel: false,
        delay: false,
        alert: false,
        told: false,
        began: false,
        first: None,
        last: None,
    }
}

fn zero(d: i32) -> bool
    ensures { result ≡ enrich.is_zero d }
{
    d == 0
}

// A nonzero delay of an endpoint that has realtime.
fn late(r: LegRealtime) -> bool
    ensures { result ≡ late_of r }
{
    let d = r.departs;
    let a = r.arrives;
    if journey_leg::live(r) {
        if zero(d.delay) {
            return !zero(a.delay);
        }
        return true;
    }
    false
}

// A time that is taken, or else what stood there.
fn taken(b: bool, t: i64, old: Option<i64>) -> Option<i64>
    ensures { given_signed result ≡ enrich.taken b t (given_signed old) }
{
    if b {
        return Some(t);
    }
    old
}

fn choose(b: bool, x: Option<i64>, y: Option<i64>) -> Option<i64>
    ensures { result ≡ cond b x y }
{
    if b { x } else { y }
}

fn or(a: bool, b: bool) -> bool
    ensures { result ≡ a || b }
{
    if a { true } else { b }
}

// One leg more, by what look-ups gave for it, whether an alert applies, and its realtime times as they arrived.
pub fn meet(
    s: Survey,
    r: LegRealtime,
    alert: bool,
    departure: Option<i64>,
    arrival: Option<i64>,
) -> Survey
    ensures { gathered_of result ≡ meets (gathered_of s) r alert (given_signed departure) (given_signed arrival) }
{
    let d = r.departs;
    let a = r.arrives;
    let live = journey_leg::live(r);
    let late = late(r);
    let last = taken(live, a.time, arrival);
    let old = s.first;
    let first = choose(s.began, old, taken(live, d.time, departure));
    Survey {
        cancel: or(s.cancel, r.cancels),
        delay: or(s.delay, late),
        alert: or(s.alert, alert),
        told: or(s.told, live),
        began: true,
        first,
        last,
    }
}

// The first status that holds: CANCELLED 4, DELAYED 3, DISRUPTED 2, ON_TIME 1, SCHEDULED 0.
pub fn status(s: Survey) -> u64
    ensures { result ≡ status_by (gathered_of s) }
{
    if s.cancel {
        return 4;
    }
    if s.delay {
        return 3;
    }
    if s.alert {
        return 2;
    }
    if s.told {
        return 1;
    }
    0
}

fn given_or(old: i64, o: Option<i64>) -> i64
    ensures { result ≡ given_or old (given_signed o) }
{
    match o {
        None => old,
        Some(t) => t,
    }
}

// Whether a sum or a difference with z has room.
fn small(z: i64) -> bool
    ensures { Small z result }
{
    if z < -4611686018427387904 {
        return false;
    }
    if 4611686018427387903 < z {
        return false;
    }
    true
}

// How long it is from d to a.
fn minus(a: i64, d: i64) -> i64
    ensures { Minus a d result }
{
    if small(a) {
        if small(d) {
            return a - d;
        }
    }
    0
}

// The card's departure and arrival, by the first pass; else as they arrived.
fn card_times(card: &[u8], at: usize, g: Survey) -> CardTimes
    requires { at < length card.now }
    ensures { ReadsTimes g card.now at result }
{
    let p = journey_places::card(card, at);
    let first = g.first;
    let last = g.last;
    let departure = given_or(formats_read::signed(card, p.departure), first);
    let arrival = given_or(formats_read::signed(card, p.arrival), last);
    CardTimes { departure, arrival }
}

fn head_of(
    out: &mut [u8],
    w: Option<usize>,
    t: CardTimes,
    duration: i64,
    status: u64,
) -> Option<usize>
    ensures { Adds out.old w out.new result
        (head_w t.departure t.arrival duration status) }
{
    let w1 = formats_write::byte(out, w, 1);
    let w2 = formats_write::signed(out, w1, t.departure);
    let w3 = formats_write::signed(out, w2, t.arrival);
    let w4 = formats_write::signed(out, w3, duration);
    formats_write::number(out, w4, status)
}

// The head of the card at `at`, by the first pass: all in front of its headers.
pub fn head(card: &[u8], at: usize, g: Survey, out: &mut [u8], w: Option<usize>) -> Option<usize>
    ensures { PutsHead g card.now at out.old w out.new result }
{
    if card.len() <= at {
        return None;
    }
    let t = card_times(card, at, g);
    head_of(out, w, t, minus(t.arrival, t.departure), status(g))
}
