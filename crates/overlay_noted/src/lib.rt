// How the walk of question 2 notes what it passes, in lent numbers: a place in 32 bits, and a feed's four numbers.
#![tactic(auto)]

ghost use Rattle.std.specs.Prelude.{◌<◌};
ghost use Rattle.overlay_noted.specs.Promises.Noting.{Put, PartsPut};

// The place p goes in at i, where the numbers reach so far: who asks for no places lends none. A place of a longer
// buffer than an overlay may have is cut, and then nothing is said of it.
pub fn note(noted: &mut [u32], i: usize, p: usize)
    ensures { Put noted.old i p noted.new }
{
    if i < noted.len() {
        noted[i] = (p % 4294967296) as u32;
    }
}

// The numbers of the feed at rank r: the place of its entry, the count of its trips, the places of its vehicles and
// its alerts.
pub fn note_parts(
    noted: &mut [u32],
    r: usize,
    entry: usize,
    count: usize,
    vehicles: usize,
    alerts: usize,
)
    requires { r < 4 }
    ensures { PartsPut noted.old noted.new r entry count vehicles alerts }
{
    let i = 8192 + 4 * r;
    note(noted, i, entry);
    note(noted, i + 1, count);
    note(noted, i + 2, vehicles);
    note(noted, i + 3, alerts);
}
