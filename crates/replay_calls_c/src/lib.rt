// A REPLAY of a script of calls, for a C host.
#![tactic(auto)]

ghost use Rattle.std.specs.Prelude.{min, length};
ghost use Rattle.panel.specs.Lengths.{lengths};
ghost use Rattle.replay_turn.specs.Lent.{lent_to};
ghost use Rattle.replay_calls.specs.Replay.{ReplayHolds};

use panel_report::OVERLAY;

// A REPLAY of a script at the published lengths.
#[unsafe(no_mangle)]
pub extern "C" fn mipsuqal_replay(
    script: &[u8],
    a: &mut [u8],
    b: &mut [u8],
    out: &mut [u8],
    keys: &mut [u8],
    marks: &mut [u32],
    order: &mut [u32],
) -> u32
    ensures { ReplayHolds lengths (lent_to (min (length a.old) (length b.old))
        (length out.old) (length keys.old) (length marks.old)
        (length order.old)) script.now result out.new }
{
    replay_calls::replay(OVERLAY, script, a, b, out, keys, marks, order)
}
