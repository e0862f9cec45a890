// Where the parts of a card and of its legs stand: quick passes, as formats_skip has them over leaves.
#![tactic(auto)]

ghost use Rattle.std.specs.Prelude.{◌<◌, length};
ghost use Rattle.formats.specs.Format.{list};
ghost use Rattle.formats_read.specs.Promises.Fields.{part};
ghost use Rattle.formats_skip.specs.Promises.Passes.{Passes, Leads};
ghost use Rattle.journey.specs.Card.{transit, middle, leg};
ghost use Rattle.journey_places.specs.Promises.Places.{StopsAt, LegAt, ChangingAt, CardAt};

// Of a leg, from its first stop on: the other stop, the two sequences, the two scheduled times, what was realtime.
#[derive(Drop)]
pub struct StopPlaces {
    pub to: usize,
    pub board: usize,
    pub alight: usize,
    pub departure: usize,
    pub arrival: usize,
    pub realtime: usize,
}

// Of a leg, whose mode stands in front.
#[derive(Drop)]
pub struct LegPlaces {
    pub short: usize,
    pub route: usize,
    pub trip: usize,
    pub direction: usize,
    pub from: usize,
    pub to: usize,
    pub board: usize,
    pub alight: usize,
    pub departure: usize,
    pub arrival: usize,
    pub realtime: usize,
}

// Of a leg, the parts that may change: realtime times and delays, whether it is cancelled, the vehicle's place, the
// middle stops.
#[derive(Clone, Copy)]
pub struct ChangingPlaces {
    pub realtime: usize,
    pub cancelled: usize,
    pub place: usize,
    pub middles: usize,
}

#[derive(Drop)]
pub struct CardPlaces {
    pub departure: usize,
    pub arrival: usize,
    pub legs: usize,
}

// The parts behind the first stop, which stands at `at`.
fn stops(s: &[u8], at: usize) -> StopPlaces
    ensures { StopsAt s.now at result }
{
    let to = formats_skip::past_text(s, at);
    let board = formats_skip::past_text(s, to);
    let alight = formats_skip::past_number(s, board);
    let departure = formats_skip::past_number(s, alight);
    let arrival = formats_skip::past_number(s, departure);
    let realtime = formats_skip::past_number(s, arrival);
    StopPlaces {
        to,
        board,
        alight,
        departure,
        arrival,
        realtime,
    }
}

// The parts of the transit leg at `at`.
pub fn leg(s: &[u8], at: usize) -> LegPlaces
    ensures { LegAt s.now at result }
{
    let short = formats_skip::past_text(s, at);
    let route = formats_skip::past_text(s, short);
    let trip = formats_skip::past_text(s, route);
    let direction = formats_skip::past_text(s, trip);
    let from = formats_skip::past_optional_number(s, direction);
    let r = stops(s, from);
    LegPlaces {
        short,
        route,
        trip,
        direction,
        from,
        to: r.to,
        board: r.board,
        alight: r.alight,
        departure: r.departure,
        arrival: r.arrival,
        realtime: r.realtime,
    }
}

// Past the four realtime times and delays at `at`.
pub fn past_times(s: &[u8], at: usize) -> usize
    ensures { Leads 4 (part 11 transit) s.now at result }
{
    let a = formats_skip::past_optional_number(s, at);
    let b = formats_skip::past_optional_number(s, a);
    let c = formats_skip::past_optional_number(s, b);
    formats_skip::past_optional_number(s, c)
}

// Past a vehicle's place at `at`.
pub fn past_place(s: &[u8], at: usize) -> usize
    ensures { Leads 3 (part 16 transit) s.now at result }
{
    let a = formats_skip::past_optional_float(s, at);
    let b = formats_skip::past_optional_float(s, a);
    formats_skip::past_optional_number(s, b)
}

// The parts of the transit leg at `at` that may change.
pub fn changing(s: &[u8], at: usize) -> ChangingPlaces
    ensures { ChangingAt s.now at result }
{
    let realtime = leg(s, at).realtime;
    let cancelled = past_times(s, realtime);
    let place = formats_skip::past_number(s, cancelled);
    let middles = past_place(s, place);
    ChangingPlaces {
        realtime,
        cancelled,
        place,
        middles,
    }
}

// Where a middle stop's realtime stands.
pub fn middle_realtime(s: &[u8], at: usize) -> usize
    ensures { Leads 3 middle s.now at result }
{
    let a = formats_skip::past_text(s, at);
    let b = formats_skip::past_number(s, a);
    formats_skip::past_number(s, b)
}

pub fn past_middle(s: &[u8], at: usize) -> usize
    ensures { Passes middle s.now at result }
{
    let a = formats_skip::past_text(s, at);
    let b = formats_skip::past_number(s, a);
    let c = formats_skip::past_number(s, b);
    let d = formats_skip::past_optional_number(s, c);
    formats_skip::past_optional_number(s, d)
}

pub fn past_middles(s: &[u8], at: usize) -> usize
    ensures { Passes (list 64 middle) s.now at result }
{
    let count = formats_read::number(s, at);
    let mut p = count.next;
    for _ in 0..count.value {
        p = past_middle(s, p);
    }
    p
}

// From the realtime times on to the end of the leg.
fn past_realtime(s: &[u8], at: usize) -> usize
    ensures { Passes (part 11 transit) s.now at result }
{
    let a = past_times(s, at);
    let b = formats_skip::past_number(s, a);
    let c = past_place(s, b);
    let d = past_middles(s, c);
    formats_skip::past_text(s, d)
}

fn past_transit(s: &[u8], at: usize) -> usize
    ensures { Passes transit s.now at result }
{
    past_realtime(s, leg(s, at).realtime)
}

pub fn past_leg(s: &[u8], at: usize) -> usize
    ensures { Passes leg s.now at result }
{
    if s.len() <= at {
        return at;
    }
    if formats::tag(s, at) == 1 {
        return past_transit(s, at + 1);
    }
    formats_skip::past_text(s, at + 1)
}

// The parts of the card at `at`.
pub fn card(s: &[u8], at: usize) -> CardPlaces
    requires { at < length s.now }
    ensures { CardAt s.now at result }
{
    let departure = at + 1;
    let arrival = formats_skip::past_number(s, departure);
    let duration = formats_skip::past_number(s, arrival);
    let status = formats_skip::past_number(s, duration);
    let headers = formats_skip::past_number(s, status);
    let legs = formats_skip::past_texts(s, headers);
    CardPlaces {
        departure,
        arrival,
        legs,
    }
}
