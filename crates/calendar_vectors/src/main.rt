// Runs the dates of standard input on the calendar, and says how many agree. A line has 20 bytes: the seconds since
// 1970 in ten digits, a space, the date in Paris in eight digits, and a line end. The dates are those of the tz
// database: midnight in Paris and the second before it, around each change of the clocks and at each new year from
// 2000 to 2037. What the calendar answers is proved in `calendar`; the functions here promise nothing of what they
// read, so they have no `ensures`.
#![tactic(auto)]

ghost use Rattle.std.specs.Prelude.{◌≡◌, length};

use std::io;

// How long a line is.
const LINE: usize = 20;

// The number in a line's first ten digits.
fn seconds(line: &[u8]) -> u64
    requires { length line.now ≡ LINE }
{
    let mut n = 0;
    for c in &line[..10] {
        n = n % 1_000_000_000 * 10 + u64::from(c % 16 % 10);
    }
    n
}

// Whether the calendar has a line's date at its time.
fn agrees(line: &[u8]) -> bool
    requires { length line.now ≡ LINE }
{
    calendar::paris_digits(seconds(line)).as_slice() == &line[11..19]
}

// How many lines agree; where one differs, it is named.
fn run(rt: &impl Print, input: &[u8]) -> io::Result<u64> {
    let mut agree = 0u64;
    for line in input.chunks_exact(LINE) {
        if agrees(line) {
            agree = agree.wrapping_add(1);
        } else {
            rt.write_all(b"differs: ")?;
            rt.write_all(line)?;
        }
    }
    Ok(agree)
}

fn main(rt: HostRuntime) -> io::Result<()> {
    // Lent and no vector: a program that only reads and prints takes nothing of the heap.
    let mut input = [0; program_io::INPUT];
    let count = program_io::read_full(&mut rt.reader(), &mut input)?;
    let agree = run(&rt, &input[..count])?;
    println!(rt; "{agree} dates agree")
}
