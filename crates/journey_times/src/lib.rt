// Times of an event: what a trip's record and a stop's update make of a scheduled time. Times are 64 bits, delays 32.
#![tactic(auto)]

ghost use Rattle.std.specs.Prelude.{◌≡◌, false, ◌<◌};
ghost use Rattle.std.proofs.Common.{inl};
ghost use Rattle.std.specs.Int.Signed.{mag};
ghost use Rattle.formats_write.specs.Promises.Given.{given_signed};
ghost use Rattle.journey.specs.Times as times;
ghost use Rattle.journey_times.specs.Promises.Realtime.{realtime_of, given_delay, event_by, Schedules};
ghost use Rattle.journey_times.specs.Promises.Realtime.{ReadsDelay, ReadsEvent, PastEvent, Cancels};
ghost use Rattle.journey_times.specs.Promises.Realtime.{ByTrip, ByUpdate, Applies};

// An event's time, by how much it is late, and whether it has realtime.
#[derive(Clone, Copy)]
pub struct StopRealtime {
    pub time: i64,
    pub delay: i32,
    pub has: bool,
}

#[derive(Drop)]
pub enum Event {
    Arrival,
    Departure,
}

// What look-ups found for a stop: no record; the place of the trip's record, in which no update is; and its update's.
#[derive(Clone, Copy)]
pub enum Known {
    Nothing,
    Trip(usize),
    Update(usize, usize),
}

// What an update says of one of its two events.
#[derive(Drop)]
struct EventTimes {
    delay: Option<i32>,
    time: Option<i64>,
}

// A delay applies, or else 0; `told` where there is realtime without one.
fn delayed(at: i64, told: bool, d: Option<i32>) -> StopRealtime
    requires { mag at < 4611686018427387904 }
    ensures { realtime_of result ≡ times.delayed at told (given_delay d) }
{
    match d {
        None => StopRealtime {
            time: at,
            delay: 0,
            has: told,
        },
        Some(d) => StopRealtime {
            time: integers::sum(at, d),
            delay: d,
            has: true,
        },
    }
}

// An absolute time beats any delay: the delay is the difference, wrapped to 32 bits.
fn timed(at: i64, t: Option<i64>, r: StopRealtime) -> StopRealtime
    ensures { realtime_of result ≡ times.timed at (given_signed t) (realtime_of r) }
{
    match t {
        None => r,
        Some(t) => StopRealtime {
            time: t,
            delay: integers::difference(t, at),
            has: true,
        },
    }
}

// An event by what is told of it, of the stop's other event, and of the trip.
fn event_by(at: i64, own: EventTimes, other: EventTimes, trip: Option<i32>) -> StopRealtime
    requires { mag at < 4611686018427387904 }
    ensures { realtime_of result ≡ event_by at own other trip }
{
    let delay = own.delay.or(other.delay);
    let late = delay.or(trip);
    let time = own.time.or(other.time);
    timed(at, time, delayed(at, true, late))
}

// A delay has 32 bits.
fn optional_delay(s: &[u8], at: usize) -> Option<i32>
    ensures { ReadsDelay s.now at result }
{
    let z = formats_read::optional_signed(s, at)?;
    Some(integers::difference(z, 0))
}

// The delay and the time at `at`.
fn event_at(s: &[u8], at: usize) -> EventTimes
    ensures { ReadsEvent s.now at result }
{
    let next = formats_skip::past_optional_number(s, at);
    EventTimes {
        delay: optional_delay(s, at),
        time: formats_read::optional_signed(s, next),
    }
}

// The place past them.
fn past_event(s: &[u8], at: usize) -> usize
    ensures { PastEvent s.now at result }
{
    formats_skip::past_optional_number(s, formats_skip::past_optional_number(s, at))
}

// Whether the record at `at` says that its trip is cancelled.
pub fn cancelled(s: &[u8], at: usize) -> bool
    ensures { Cancels s.now at result }
{
    formats_read::number(s, formats_skip::past_optional_number(s, at)).value == 1
}

// The scheduled time at `at`.
pub fn scheduled(s: &[u8], at: usize) -> i64
    ensures { Schedules s.now at result }
{
    let n = formats_read::number(s, at).value;
    if 4291833598 < n {
        return 0;
    }
    integers::from_zigzag(n)
}

// An event at the time `at` where no record is found.
fn untold(at: i64) -> StopRealtime
    requires { mag at < 4611686018427387904 }
    ensures { realtime_of result ≡ times.delayed at false (inl tt) }
{
    delayed(at, false, None)
}

// By the record at `row`, in which no update is found.
fn by_trip(at: i64, s: &[u8], row: usize) -> StopRealtime
    requires { mag at < 4611686018427387904 }
    ensures { ByTrip at s.now row result }
{
    delayed(at, cancelled(s, row), optional_delay(s, row))
}

// By the update that is found at `update`, and the record at `row`.
fn by_update(e: Event, at: i64, s: &[u8], row: usize, update: usize) -> StopRealtime
    requires { mag at < 4611686018427387904 }
    ensures { ByUpdate e at s.now row update result }
{
    let first = formats_read::text(s, update).to;
    let arrival = event_at(s, first);
    let departure = event_at(s, past_event(s, first));
    let trip = optional_delay(s, row);
    match e {
        Event::Arrival => event_by(at, arrival, departure, trip),
        Event::Departure => event_by(at, departure, arrival, trip),
    }
}

// The event that is scheduled for `at`, by what is known of its stop.
pub fn apply_time(e: Event, at: i64, s: &[u8], known: Known) -> StopRealtime
    requires { mag at < 4611686018427387904 }
    ensures { Applies e at s.now known result }
{
    match known {
        Known::Nothing => untold(at),
        Known::Trip(row) => by_trip(at, s, row),
        Known::Update(row, update) => by_update(e, at, s, row, update),
    }
}
