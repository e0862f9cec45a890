// Whether an alert whose ids hit a leg applies: road traffic first, and its texts only where the route alone hits.
ghost use Rattle.std.specs.Prelude.{◌≡◌, length};
ghost use Rattle.alerts_apply.specs.Promises.Hits.{hit_any, Clear, Told, Decided, DecidedNew};

use crate::hits::Hit;
use crate::texts::{road_known, text_fits};

fn is_hit(h: Hit) -> bool
    ensures { result ≡ hit_any h }
{
    if h.trip {
        return true;
    }
    if h.stop {
        return true;
    }
    h.route
}

// Whether the alert isn't one about road traffic that meets a rail leg.
fn is_clear(text: &mut [u8], words: &mut [u32], s: &[u8], at: usize, mode: &[u8]) -> bool
    requires { length words.old ≡ 3 }
    ensures { Clear s.now at mode.now result text.old text.new
        words.old words.new }
{
    if !alerts_ids::is_rail_like_mode(mode) {
        return true;
    }
    !road_known(text, words, s, at)
}

// A trip or a stop that is hit decides; a route does where the texts may be about its line.
fn is_told(text: &mut [u8], words: &mut [u32], s: &[u8], at: usize, short: &[u8], h: Hit) -> bool
    requires { length words.old ≡ 3 }
    ensures { Told s.now at short.now h result text.old text.new
        words.old words.new }
{
    if h.trip {
        return true;
    }
    if h.stop {
        return true;
    }
    if !h.route {
        return false;
    }
    text_fits(text, words, s, at, short)
}

// `words` is what is known of the alert.
pub fn decide(
    text: &mut [u8],
    words: &mut [u32],
    s: &[u8],
    at: usize,
    short: &[u8],
    mode: &[u8],
    h: Hit,
) -> bool
    requires { length words.old ≡ 3 }
    ensures { Decided s.now at short.now mode.now h result text.old
        text.new words.old words.new }
{
    if !is_hit(h) {
        return false;
    }
    if !is_clear(text, words, s, at, mode) {
        return false;
    }
    is_told(text, words, s, at, short, h)
}

// The same where nothing is known yet.
pub fn decide_new(text: &mut [u8], s: &[u8], at: usize, short: &[u8], mode: &[u8], h: Hit) -> bool
    ensures { DecidedNew s.now at short.now mode.now h result text.old
        text.new }
{
    let mut words = [0u32; 3];
    decide(text, &mut words, s, at, short, mode, h)
}
