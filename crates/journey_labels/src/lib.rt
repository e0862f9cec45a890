// The labels of a card's alerts: noted as places in the old overlay's bytes, ascending by what stands there, each once.
#![tactic(auto)]

ghost use Rattle.std.specs.Prelude.{◌≤◌, ◌<◌, length, get_or};
ghost use Rattle.decode.specs.Sizes.{most_old};
ghost use Rattle.journey_labels.specs.Promises.Labels.{most_labels, Inside, SoundLabels};
ghost use Rattle.journey_labels.specs.Promises.Labels.{OrderAt, Ranks, StandsAt, LabelNoted};

use std::cmp::Ordering;

// The order of the label from `from` up to `to` and the one at rank i.
fn order_at(old: &[u8], froms: &[u32], tos: &[u32], i: usize, from: usize, to: usize) -> Ordering
    requires inside { Inside old.now (from, to) }
    requires i_in_bounds { (i < length froms.now) × (i < length tos.now) }
    requires inside_2 { Inside old.now (get_or froms.now i 0, get_or tos.now i 0) }
    ensures { OrderAt old.now froms.now tos.now i (from, to) result }
{
    let a = slices::word(froms, i);
    let e = slices::word(tos, i);
    slices::compare(&old[from..to], &old[a..e])
}

// How many labels stand before it: found by halving.
fn rank(old: &[u8], froms: &[u32], tos: &[u32], n: usize, from: usize, to: usize) -> usize
    requires sound_labels { SoundLabels old.now froms.now tos.now n }
    requires inside { Inside old.now (from, to) }
    ensures { Ranks old.now froms.now tos.now n (from, to) result }
{
    // Halved by hand: `partition_point` takes one slice, and a label's ends stand in two that the caller lends.
    let mut lo: usize = 0;
    let mut hi = n;
    while lo < hi {
        let mid = lo + (hi - lo) / 2;
        if decode_slots::is_more(order_at(old, froms, tos, mid, from, to)) {
            lo = mid + 1;
        } else {
            hi = mid;
        }
    }
    lo
}

// Whether it stands at rank r.
fn stands(
    old: &[u8],
    froms: &[u32],
    tos: &[u32],
    n: usize,
    r: usize,
    from: usize,
    to: usize,
) -> bool
    requires sound_labels { SoundLabels old.now froms.now tos.now n }
    requires inside { Inside old.now (from, to) }
    ensures { StandsAt old.now froms.now tos.now n r (from, to) result }
{
    if r >= n {
        return false;
    }
    decode_slots::is_same(order_at(old, froms, tos, r, from, to))
}

// The label that stands in the old overlay from `from` up to `to` is noted, where it is a new one: how many there are
// then.
pub fn note(
    old: &[u8],
    froms: &mut [u32],
    tos: &mut [u32],
    n: usize,
    from: usize,
    to: usize,
) -> usize
    requires sound_labels { SoundLabels old.now froms.old tos.old n }
    requires inside { Inside old.now (from, to) × (length old.now ≤ most_old) × (n ≤ most_labels) }
    ensures { LabelNoted old.now froms.old tos.old n (from, to)
        froms.new tos.new result }
{
    let r = rank(old, froms, tos, n, from, to);
    if stands(old, froms, tos, n, r, from, to) {
        return n;
    }
    slices::insert(froms, r, n, from as u32);
    slices::insert(tos, r, n, to as u32);
    n + 1
}
