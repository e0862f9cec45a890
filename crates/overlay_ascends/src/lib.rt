// Whether the keys of a vehicle sheet ascend: its form asks for that.
#![tactic(auto)]

ghost use Rattle.std.specs.Prelude.{◌≡◌, ◌≤◌, length};
ghost use Rattle.std.proofs.Math.Seq.{slice};
ghost use Rattle.slices.specs.Lists.{lex_of};
ghost use Rattle.maps.specs.Map.{is_less};
ghost use Rattle.overlay_ascends.specs.Promises.Ascends.{Ascends};

use formats::Span;

// Whether the bytes of one key come before those of another.
fn precedes(sheet: &[u8], before: Span, behind: Span) -> bool
    requires a_le_e { (before.from ≤ before.to) × (before.to ≤ length sheet.now) }
    requires b_le_f { (behind.from ≤ behind.to) × (behind.to ≤ length sheet.now) }
    ensures { result ≡ is_less (lex_of
        (slice before.from before.to sheet.now)
        (slice behind.from behind.to sheet.now)) }
{
    slices::compare(
        &sheet[before.from..before.to],
        &sheet[behind.from..behind.to],
    )
    .is_lt()
}

// Whether the keys of the vehicles whose list stands at `at` ascend.
pub fn keys_ascend(sheet: &[u8], at: usize) -> bool
    ensures { Ascends sheet.now at result }
{
    let count = formats_read::number(sheet, at);
    if count.value == 0 {
        return true;
    }
    let first = count.next;
    let mut before = formats_read::text(sheet, first);
    let mut p = overlay_skip::past_vehicle_entry(sheet, first);
    for _ in 1..count.value {
        let key = formats_read::text(sheet, p);
        if !precedes(sheet, before, key) {
            return false;
        }
        before = key;
        p = overlay_skip::past_vehicle_entry(sheet, p);
    }
    true
}
