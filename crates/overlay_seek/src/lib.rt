// Look-ups in what stands in an overlay: their answer, and a text compared where it stands. The law of their loops is
// in specs/Laws/Seek.
#![tactic(auto)]

ghost use Rattle.overlay_seek.specs.Promises.Answers.{IsText};

// Whether the text at `at` is x.
pub fn is_text(old: &[u8], at: usize, x: &[u8]) -> bool
    ensures { IsText old.now at x.now result }
{
    let t = formats_read::text(old, at);
    let from = t.from;
    let to = t.to;
    slices::same(&old[from..to], x)
}
