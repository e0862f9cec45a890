// A ride played from files: each step of the command line is a call of the panel, and what it leaves is shown.
//   message FEED FILE    alerts FEED FILE    vehicles FEED CLOCK FILE    card FILE    records
#![tactic(auto)]

pub mod answer; // what a call's number says
pub mod words; // the command line's words, and the files that they name
pub mod steps; // a step: a call, and what is shown of it

use std::rt::Runtime;
use std::{io, mem};
use steps::{ROOM, Step};
use words::Word;

// All steps: the overlays take turns after each accepted call that writes.
fn play(rt: &(impl Runtime + AllocGlobal), words: &[Word]) -> io::Result<()> {
    let mut old = vec![in rt.alloc(); 0; ROOM]?;
    let mut new = vec![in rt.alloc(); 0; ROOM]?;
    panel_report::fresh(ROOM, &mut old);
    let mut at = 1;
    for _ in words {
        let (step, next) = Step::parse(words, at);
        if step.play(rt, &old, &mut new)? {
            mem::swap(&mut old, &mut new);
        }
        at = next;
    }
    Ok(())
}

fn main(rt: HostRuntime) -> io::Result<()> {
    let words = words::all(&rt, rt.alloc())?;
    play(&rt, &words)
}
