// A whole card written anew: its head by the first pass, the headers that it noted, and the legs finished.
#![tactic(auto)]

ghost use Rattle.std.specs.Prelude.{◌≤◌, length};
ghost use Rattle.overlay_noted.specs.Promises.Noted.{Noted};
ghost use Rattle.journey_enrich.specs.Promises.Enrich.{HeadersUpTo, HeadersPut, Enriches};

use journey_card::Survey;

// The texts of the first n labels, which are places in b.
fn each_header(
    old: &[u8],
    froms: &[u32],
    tos: &[u32],
    n: usize,
    out: &mut [u8],
    w: Option<usize>,
) -> Option<usize>
    requires { (n ≤ length froms.now) × (n ≤ length tos.now) }
    ensures { HeadersUpTo n old.now froms.now tos.now n
        out.old w out.new result }
{
    let mut i = 0;
    let mut k = w;
    while i < n {
        let from = slices::word(froms, i);
        let to = slices::word(tos, i);
        k = formats_write::text(out, k, old, from, to);
        i += 1;
    }
    k
}

// The list of headers: the n labels that were noted.
pub fn headers(
    old: &[u8],
    froms: &[u32],
    tos: &[u32],
    n: usize,
    out: &mut [u8],
    w: Option<usize>,
) -> Option<usize>
    ensures { HeadersPut old.now froms.now tos.now n
        out.old w out.new result }
{
    if froms.len() < n {
        return None;
    }
    if tos.len() < n {
        return None;
    }
    let q = formats_write::number(out, w, n as u64);
    each_header(old, froms, tos, n, out, q)
}

// THE CARD at `at`, finished over the overlay b, whose trips' places are noted, by what a first pass over its legs
// gathered: g, and n labels.
pub fn enrich(
    card: &[u8],
    at: usize,
    old: &[u8],
    noted: &[u32],
    g: Survey,
    froms: &[u32],
    tos: &[u32],
    n: usize,
    out: &mut [u8],
    w: Option<usize>,
) -> Option<usize>
    requires { Noted old.now noted.now }
    ensures { Enriches g n card.now at old.now froms.now tos.now
        out.old w out.new result }
{
    if card.len() <= at {
        return None;
    }
    let p = journey_places::card(card, at);
    let h = journey_card::head(card, at, g, out, w);
    let k = headers(old, froms, tos, n, out, h);
    journey_finish::legs(card, p.legs, old, noted, out, k)
}
