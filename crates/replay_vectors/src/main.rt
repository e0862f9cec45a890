// The fixed lists of calls, replayed on overlays of 16,384 bytes. `stdin` has the lists: of each the length of its
// name, that of its script in three bytes, low first, the name and the script. A line of `stdout` is the name, the
// number of each call, and Adler-32 of every byte that the replay told. Both files were written by
// `differential/src/bin/vectors` from the original's answers and the second reading of document 01, and by no call of
// this program. What a replay tells is proved in `replay_calls`; the functions here read and write, and promise nothing
// of it.
#![tactic(auto)]

ghost use Rattle.std.specs.Prelude.{◌≤◌, length, IfOk};
ghost use Rattle.std.specs.Iterator.{at_most};

use std::io;

// How long an overlay is here.
const ROOM: usize = 16384;

// How long a message's working buffers are.
const KEYS: usize = 280713;

const MARKS: usize = 6147;

const ORDER: usize = 2049;

// How much a replay tells at most, and how long all lists are.
const TOLD: usize = 262144;

const LISTS: usize = 1048576;

// The calls from this kind on are a card and a report: behind their number stands their output.
const CARD: u64 = 4;

// A list of calls.
#[derive(Drop)]
struct List<'a> {
    name: &'a [u8],
    script: &'a [u8],
}

// The lists that stand in some bytes, as far as they are whole.
#[derive(Drop)]
struct Lists<'a>(&'a [u8]);

impl<'a> Iterator for Lists<'a> {
    type Item = List<'a>;

    ghost remaining = { λ s. at_most (length s.0.now) };

    fn next(&mut self) -> Option<List<'a>> {
        let [length, low, middle, high, rest @ ..] = self.0 else {
            return None;
        };
        let (name, rest) = rest.split_at_checked(usize::from(*length))?;
        let length = u32::from_le_bytes([*low, *middle, *high, 0]);
        let (script, rest) = rest.split_at_checked(length as usize)?;
        self.0 = rest;
        Some(List { name, script })
    }
}

// Adler-32 (RFC 1950).
fn sum(s: &[u8]) -> u32 {
    let mut low: u32 = 1;
    let mut high: u32 = 0;
    for b in s {
        low = (low + u32::from(*b)) % 65521;
        high = (high + low) % 65521;
    }
    high << 16 | low
}

// The numbers of a script's calls, written; and where what was told ends.
fn write_numbers(rt: &impl Print, script: &[u8], told: &[u8]) -> io::Result<usize>
    ensures { IfOk result (λ end. end ≤ length told.now) }
{
    let Some((count, start)) = replay_script::calls(script) else {
        return Ok(0);
    };
    let mut at = start;
    let mut end = 0;
    for _ in 0..count {
        let Some(number) = told.get(end) else {
            break;
        };
        print!(rt; " {number}")?;
        let call = replay_script::read(script, at);
        at = call.next;
        end += 1;
        if CARD <= call.kind {
            end = end.saturating_add(call.out).min(told.len());
        }
    }
    Ok(end)
}

// A script replayed: whether it is one. What it tells is in `told`. The buffers are lent and no vectors: a program
// that only reads and prints takes nothing of the heap.
fn replay(script: &[u8], told: &mut [u8]) -> bool {
    let number = replay_calls::replay(
        ROOM,
        script,
        &mut [0; ROOM],
        &mut [0; ROOM],
        told,
        &mut [0; KEYS],
        &mut [0; MARKS],
        &mut [0; ORDER],
    );
    number == 0
}

fn show(rt: &impl Print, list: List<'_>) -> io::Result<()> {
    rt.write_all(list.name)?;
    rt.print(":")?;
    let mut told = [0; TOLD];
    if replay(list.script, &mut told) {
        let end = write_numbers(rt, list.script, &told)?;
        println!(rt; ", {}", sum(&told[..end]))
    } else {
        println!(rt; " no script")
    }
}

// Room for all lists: in a function, so that no proof has to count its zeros.
fn room() -> [u8; LISTS] {
    [0; LISTS]
}

fn main(rt: HostRuntime) -> io::Result<()> {
    let mut lists = room();
    let count = program_io::read_full(&mut rt.reader(), &mut lists)?;
    for list in Lists(&lists[..count]) {
        show(&rt, list)?;
    }
    Ok(())
}
