// A stop update of a trip whose record stands in an overlay: by its sequence, else by the card's stop id, which is
// compared with `feed:id` without joining that.
#![tactic(auto)]

ghost use Rattle.decode.specs.Trip.{number32, stop_update};
ghost use Rattle.formats_write.specs.Promises.Given.{given_number};
ghost use Rattle.overlay_seek.specs.Promises.Answers.{Seeks};
ghost use Rattle.overlay_updates.specs.Promises.Updates.{StopTold, numbered, stopping};
ghost use Rattle.overlay_updates.specs.Promises.Updates.{BySequence, ByStop, FindsUpdate};

// Whether the stop of the update at `at` is the card's stop.
fn stop_told(old: &[u8], at: usize, feed: &[u8], stop: &[u8]) -> bool
    ensures { StopTold old.now at feed.now stop.now result }
{
    let t = formats_read::text(old, at);
    overlay_ids::stop_fits(feed, &old[t.from..t.to], stop)
}

// Of the updates at `at` the first of sequence n.
fn sequence_in(old: &[u8], at: usize, n: u64) -> Option<usize>
    ensures { Seeks number32 stop_update (numbered n) old.now at result }
{
    let count = formats_read::number(old, at);
    let mut p = count.next;
    for _ in 0..count.value {
        let k = formats_read::number(old, p);
        if k.value == n {
            return Some(k.next);
        }
        p = decode_skip::past_update(old, k.next);
    }
    None
}

// Of the updates at `at` the first of the card's stop.
fn stop_in(old: &[u8], at: usize, feed: &[u8], stop: &[u8]) -> Option<usize>
    ensures { Seeks number32 stop_update (stopping feed.now stop.now) old.now at result }
{
    let counted = formats_read::number(old, at);
    let mut p = counted.next;
    for _ in 0..counted.value {
        let m = formats_skip::past_number(old, p);
        if stop_told(old, m, feed, stop) {
            return Some(m);
        }
        p = decode_skip::past_update(old, m);
    }
    None
}

// The update of sequence n of the trip at `at`.
pub fn by_sequence(old: &[u8], at: usize, n: u64) -> Option<usize>
    ensures { BySequence old.now at n result }
{
    let p = decode_skip::updates_place(old, at);
    sequence_in(old, p, n)
}

// The update of the card's stop of the trip at `at`, in a feed.
pub fn by_stop(old: &[u8], at: usize, feed: &[u8], stop: &[u8]) -> Option<usize>
    ensures { ByStop old.now at feed.now stop.now result }
{
    let p = decode_skip::updates_place(old, at);
    stop_in(old, p, feed, stop)
}

// By the sequence, where one is given and there; else by the stop. No `and_then` with `or_else`: tried, and the proof
// did not close, since it does not see what the closures' calls promise.
pub fn find_update(
    old: &[u8],
    at: usize,
    feed: &[u8],
    sequence: Option<u64>,
    stop: &[u8],
) -> Option<usize>
    ensures { FindsUpdate old.now at feed.now (given_number sequence) stop.now result }
{
    let Some(n) = sequence else {
        return by_stop(old, at, feed, stop);
    };
    if let Some(p) = by_sequence(old, at, n) {
        return Some(p);
    }
    by_stop(old, at, feed, stop)
}
