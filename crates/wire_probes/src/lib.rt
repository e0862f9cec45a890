// Calls of `slices` and `wire` for a C host: bench/bytes.c measures them, and runs the wire reader on an input too
// long for a program's own arrays.
#![tactic(auto)]

ghost use Rattle.std.specs.Prelude.{◌≡◌, length, replicate};
ghost use Rattle.slices.specs.Lists.{zeros, lex_of};
ghost use Rattle.wire_probes.specs.Probes.{field_end, xor_numbers, copied, order_number};

use std::cmp::Ordering;
use wire::Cursor;

// Where the field that starts at `at` ends; 0 where it is broken.
#[unsafe(no_mangle)]
pub extern "C" fn probes_field_end(s: &[u8], at: usize) -> usize
    ensures { result ≡ field_end s.now at }
{
    let here = Cursor { at };
    let Some((number, wire, next)) = here.key(s) else {
        return 0;
    };
    let Some(after) = next.skip(s, number, wire, 16) else {
        return 0;
    };
    after.at
}

// The exclusive or of the numbers that s consists of; 0 where one is broken.
#[unsafe(no_mangle)]
pub extern "C" fn probes_xor_numbers(s: &[u8]) -> u64
    ensures { result ≡ xor_numbers s.now }
{
    let mut acc: u64 = 0;
    let mut at = 0;
    while at < s.len() {
        let here = Cursor { at };
        let Some((value, next)) = here.number(s) else {
            return 0;
        };
        acc ^= value;
        at = next.at;
    }
    acc
}

// Whether all bytes are 0.
#[unsafe(no_mangle)]
pub extern "C" fn probes_all_zero(s: &[u8]) -> bool
    ensures { result ≡ zeros s.now }
{
    slices::all_zero(s)
}

// All bytes become 0.
#[unsafe(no_mangle)]
pub extern "C" fn probes_clear(s: &mut [u8])
    ensures { s.new ≡ replicate (length s.old) 0 }
{
    slices::clear(s);
}

// s goes into the front of d, where it fits.
#[unsafe(no_mangle)]
pub extern "C" fn probes_copy(d: &mut [u8], s: &[u8])
    ensures { d.new ≡ copied d.old s.now }
{
    if s.len() <= d.len() {
        slices::copy(d, 0, s);
    }
}

// 0, 1 or 2, as a is before b, the same, or behind it.
#[unsafe(no_mangle)]
pub extern "C" fn probes_compare(a: &[u8], b: &[u8]) -> u8
    ensures { result ≡ order_number (lex_of a.now b.now) }
{
    match slices::compare(a, b) {
        Ordering::Less => 0,
        Ordering::Equal => 1,
        Ordering::Greater => 2,
    }
}
