// The places of a feed's alerts, noted once, so that an alert is found by its number.
ghost use Rattle.alerts_search.specs.Promises.Places.{Kept, Noted};

// The place p at i, where there is room for it.
fn note(places: &mut [u32], i: usize, p: usize)
    ensures { Kept places.old places.new i p }
{
    if places.len() <= i {
        return;
    }
    if 4294967295 < p {
        return;
    }
    places[i] = p as u32;
}

// The places of the alerts at `at`; how many they are.
pub fn note_alerts(s: &[u8], at: usize, places: &mut [u32]) -> usize
    ensures { Noted s.now at result places.old places.new }
{
    let count = formats_read::number(s, at);
    let mut p = count.next;
    let mut left = count.value;
    let mut i = 0;
    while 0 < left {
        note(places, i, p);
        p = alerts_skip::past_alert(s, p);
        i += 1;
        left -= 1;
    }
    i
}
