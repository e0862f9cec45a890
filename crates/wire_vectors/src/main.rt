// Runs the vectors of standard input on the wire reader, and says how many agree. A line is a letter, the bytes, and
// what is read:
//   n BYTES = VALUE 0 NEXT         a number         k BYTES = NUMBER WIRE NEXT   a key
//   t BYTES = START LENGTH NEXT    a text           f BYTES = 0 0 NEXT           a field, passed over
// or '!' behind the bytes, where they are broken. All numbers are hexadecimal, and one space stands between two
// words. A line that begins with '#' says what follows. What the reader answers is proved in `wire`; the functions here
// promise nothing of what they read, so they have no `ensures`.
#![tactic(auto)]

ghost use Rattle.std.specs.Prelude.{◌≤◌, length};

use std::io;
use std::slice::Iter;
use wire::Cursor;

// How many bytes a line gives at most.
const BYTES: usize = 64;

// What is read, and the place behind it.
#[derive(PartialEq, Eq, Drop)]
struct Answer {
    a: u64,
    b: u64,
    next: u64,
}

impl Answer {
    fn new(a: u64, b: u64, next: Cursor) -> Self {
        let next = next.at as u64;
        Answer { a, b, next }
    }
}

fn number(s: &[u8]) -> Option<Answer> {
    let (value, next) = (Cursor { at: 0 }).number(s)?;
    Some(Answer::new(value, 0, next))
}

fn key(s: &[u8]) -> Option<Answer> {
    let (number, wire, next) = (Cursor { at: 0 }).key(s)?;
    Some(Answer::new(number, wire, next))
}

fn text(s: &[u8]) -> Option<Answer> {
    let (start, len, next) = (Cursor { at: 0 }).text(s)?;
    Some(Answer::new(start as u64, len as u64, next))
}

fn field(s: &[u8]) -> Option<Answer> {
    let (number, wire, value) = (Cursor { at: 0 }).key(s)?;
    let next = value.skip(s, number, wire, 16)?;
    Some(Answer::new(0, 0, next))
}

// What the reader answers of s, as a line's letter asks.
fn read(letter: u8, s: &[u8]) -> Option<Answer> {
    match letter {
        b'n' => number(s),
        b'k' => key(s),
        b't' => text(s),
        _ => field(s),
    }
}

fn is_digit(c: u8) -> bool {
    vector_lines::digit(c).is_some()
}

// The number whose digits come next; the byte behind them is passed too.
fn word(line: &mut Iter<'_, u8>) -> u64 {
    line.map_while(|c| vector_lines::digit(*c))
        .fold(0, |n, d| n << 4 | u64::from(d))
}

// The bytes that come next go into `s`, as many as have room there: how many they are.
fn bytes(line: &mut Iter<'_, u8>, s: &mut [u8]) -> usize
    ensures { result ≤ length s.new }
{
    for n in 0..s.len() {
        match line.as_slice() {
            [c, ..] if is_digit(*c) => s[n] = (word(line) % 256) as u8,
            _ => return n,
        }
    }
    s.len()
}

// What a line says is read: three numbers behind '=', else nothing.
fn wanted(line: &mut Iter<'_, u8>) -> Option<Answer> {
    if !line.as_slice().starts_with(b"=") {
        return None;
    }
    let _sign = word(line);
    let _space = word(line);
    let a = word(line);
    let b = word(line);
    let next = word(line);
    Some(Answer { a, b, next })
}

// Whether what is read is what the line says.
fn agrees(letter: u8, line: &[u8]) -> bool {
    let mut rest = line.get(2..).unwrap_or(line).iter();
    // Lent and no vector: a program that only reads and prints takes nothing of the heap.
    let mut s = [0; BYTES];
    let count = bytes(&mut rest, &mut s);
    read(letter, &s[..count]) == wanted(&mut rest)
}

// How many vectors of the input agree; where one differs, its line is named.
fn run(rt: &impl Print, input: &[u8]) -> io::Result<u64> {
    let mut agree = 0u64;
    for (line, number) in input.split_inclusive(|b| *b == b'\n').zip(1u64..) {
        match line {
            [] | [b'#' | b'\n', ..] => {}
            [letter, ..] => {
                if agrees(*letter, line) {
                    agree = agree.wrapping_add(1);
                } else {
                    println!(rt; "differs: line {number}")?;
                }
            }
        }
    }
    Ok(agree)
}

fn main(rt: HostRuntime) -> io::Result<()> {
    let mut input = [0; program_io::INPUT];
    let count = program_io::read_full(&mut rt.reader(), &mut input)?;
    let agree = run(&rt, &input[..count])?;
    println!(rt; "{agree} vectors agree")
}
