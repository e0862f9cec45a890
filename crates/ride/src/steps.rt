// A step of a ride: a call of the panel with what its words name, and what is shown of it.
use crate::answer::Answer;
use crate::words;
use crate::words::Word;
use std::alloc::{AllocError, Global};
use std::io;
use std::rt::Runtime;

// How long an overlay is here. The calls take any length; the published one holds every state that there is.
pub const ROOM: usize = 1048576;

// How long a message's working buffers are.
const KEYS: usize = 280713;

const MARKS: usize = 6147;

const ORDER: usize = 2049;

// How long a card's output is, and its working buffers.
const CARD: usize = 65536;

const NUMBERS: usize = 256;

const TRIPS: usize = 8208;

const KNOWN: usize = 4096;

// What the words of a step say.
#[derive(Drop)]
pub enum Step<'a> {
    Message {
        feed: &'a [u8],
        file: Option<&'a Word>,
    },
    Alerts {
        feed: &'a [u8],
        file: Option<&'a Word>,
    },
    Vehicles {
        feed: &'a [u8],
        clock: i64,
        file: Option<&'a Word>,
    },
    Card {
        file: Option<&'a Word>,
    },
    Records,
    // a word that begins no step
    Unknown(&'a [u8]),
    // past the last word
    Nothing,
}

// The k-th word behind the word `at`. A place and no iterator: a ride stands still at its word 65536, as it always did.
fn later(at: usize, k: usize) -> usize {
    if at < 65536 { at.saturating_add(k) } else { at }
}

// What was called, and what it answered.
fn tell(rt: &impl Print, call: &str, feed: &[u8], answer: Answer) -> io::Result<()> {
    print!(rt; "\n> {call}")?;
    if !feed.is_empty() {
        rt.print(" ")?;
        rt.write_all(feed)?;
    }
    println!(rt; ": {answer}")
}

// A call with a feed and a file, told; whether it is accepted.
fn update<R, F>(rt: &R, name: &str, feed: &[u8], file: Option<&Word>, call: F) -> io::Result<bool>
where
    R: Runtime + AllocGlobal,
    F: FnOnce(&[u8]) -> io::Result<u32>,
    requires { F.IsAlwaysCallable call }
{
    let Some(bytes) = words::file(rt, file)? else {
        return Ok(false);
    };
    let answer = Answer(call(&bytes)?);
    tell(rt, name, feed, answer)?;
    Ok(answer.is_accepted())
}

fn message_call(
    alloc: Global,
    old: &[u8],
    feed: &[u8],
    message: &[u8],
    new: &mut [u8],
) -> Result<u32, AllocError> {
    let mut keys = vec![in alloc; 0; KEYS]?;
    let mut marks = vec![in alloc; 0; MARKS]?;
    let mut order = vec![in alloc; 0; ORDER]?;
    Ok(panel_message::message(
        ROOM, old, feed, message, new, &mut keys, &mut marks, &mut order,
    ))
}

fn card_call(alloc: Global, old: &[u8], card: &[u8], out: &mut [u8]) -> Result<u32, AllocError> {
    let mut candidates = vec![in alloc; 0; NUMBERS]?;
    let mut met = vec![in alloc; 0; NUMBERS]?;
    let mut trips = vec![in alloc; 0; TRIPS]?;
    let mut known = vec![in alloc; 0; KNOWN]?;
    Ok(panel_card::card(
        ROOM,
        old,
        card,
        out,
        &mut candidates,
        &mut met,
        &mut trips,
        &mut known,
    ))
}

// A card is shown as it arrives, and as it is finished with its status in large.
fn show_card(rt: &(impl Runtime + AllocGlobal), file: Option<&Word>, old: &[u8]) -> io::Result<()> {
    let Some(card) = words::file(rt, file)? else {
        return Ok(());
    };
    let mut out = vec![in rt.alloc(); 0; CARD]?;
    let answer = Answer(card_call(rt.alloc(), old, &card, &mut out)?);
    tell(rt, "card", &[], answer)?;
    if answer.is_accepted() {
        println!(rt; "before:")?;
        panel_show::card::card(rt, &card, false)?;
        println!(rt; "now:")?;
        panel_show::card::card(rt, &out, true)?;
    }
    Ok(())
}

impl<'a> Step<'a> {
    // The step whose first word is the word `at`, and where the next one begins.
    pub fn parse(words: &'a [Word], at: usize) -> (Self, usize) {
        let word = |k| words.get(later(at, k));
        let text = |k| words::bytes(word(k));
        match text(0) {
            b"message" => (
                Step::Message {
                    feed: text(1),
                    file: word(2),
                },
                later(at, 3),
            ),
            b"alerts" => (
                Step::Alerts {
                    feed: text(1),
                    file: word(2),
                },
                later(at, 3),
            ),
            b"vehicles" => (
                Step::Vehicles {
                    feed: text(1),
                    clock: words::decimal(text(2)),
                    file: word(3),
                },
                later(at, 4),
            ),
            b"card" => (Step::Card { file: word(1) }, later(at, 2)),
            b"records" => (Step::Records, later(at, 1)),
            [] => (Step::Nothing, later(at, 1)),
            other => (Step::Unknown(other), later(at, 1)),
        }
    }

    // Its call, from the overlay `old`, and what is shown of it; whether the overlay `new` counts from now on.
    pub fn play(
        &self,
        rt: &(impl Runtime + AllocGlobal),
        old: &[u8],
        new: &mut [u8],
    ) -> io::Result<bool> {
        match self {
            Step::Message { feed, file } => update(rt, "message", feed, *file, |message| {
                Ok(message_call(rt.alloc(), old, feed, message, new)?)
            }),
            Step::Alerts { feed, file } => update(rt, "alerts", feed, *file, |sheet| {
                Ok(panel_sheets::alert_sheet(ROOM, old, feed, sheet, new))
            }),
            Step::Vehicles { feed, clock, file } => update(rt, "vehicles", feed, *file, |sheet| {
                Ok(panel_sheets::vehicle_sheet(ROOM, old, feed, sheet, *clock, new))
            }),
            Step::Card { file } => {
                show_card(rt, *file, old)?;
                Ok(false)
            }
            Step::Records => {
                println!(rt; "\n> records")?;
                panel_show::state::state(rt, old)?;
                Ok(false)
            }
            Step::Unknown(word) => {
                print!(rt; "\n> no step begins with ")?;
                rt.write_all(word)?;
                println!(rt)?;
                Ok(false)
            }
            Step::Nothing => Ok(false),
        }
    }
}
