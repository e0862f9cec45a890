// Quick passes over the parts of an overlay, as formats_skip has them over leaves.
#![tactic(auto)]

ghost use Rattle.formats.specs.Format.{list};
ghost use Rattle.formats_skip.specs.Promises.Passes.{Passes};
ghost use Rattle.overlay.specs.State.{vehicle, vehicle_entry, feed, feed_entry};

pub fn past_vehicle(old: &[u8], at: usize) -> usize
    ensures { Passes vehicle old.now at result }
{
    let a = formats_skip::past_optional_text(old, at);
    let b = formats_skip::past_float(old, a);
    let c = formats_skip::past_float(old, b);
    formats_skip::past_number(old, c)
}

// A vehicle with its key in front.
pub fn past_vehicle_entry(old: &[u8], at: usize) -> usize
    ensures { Passes vehicle_entry old.now at result }
{
    let p = formats_skip::past_text(old, at);
    past_vehicle(old, p)
}

pub fn past_vehicles(old: &[u8], at: usize) -> usize
    ensures { Passes (list 1024 vehicle_entry) old.now at result }
{
    let count = formats_read::number(old, at);
    let mut p = count.next;
    for _ in 0..count.value {
        p = past_vehicle_entry(old, p);
    }
    p
}

// A feed without its id.
pub fn past_feed(old: &[u8], at: usize) -> usize
    ensures { Passes feed old.now at result }
{
    let a = formats_skip::past_optional_number(old, at);
    let b = formats_skip::past_number(old, a);
    let c = decode_skip::past_trips(old, b);
    let d = past_vehicles(old, c);
    alerts_skip::past_alerts(old, d)
}

// A feed with its id in front.
pub fn past_feed_entry(old: &[u8], at: usize) -> usize
    ensures { Passes feed_entry old.now at result }
{
    let p = formats_skip::past_text(old, at);
    past_feed(old, p)
}
