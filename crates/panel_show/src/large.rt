// A text in large: letters of five rows and five columns.
use std::fmt;
use std::fmt::Display;

// The letters that the statuses have, a row after the other; any other letter is blank.
fn shape(letter: u8) -> u32 {
    match letter {
        b'A' => 0b01110_10001_11111_10001_10001,
        b'C' => 0b01111_10000_10000_10000_01111,
        b'D' => 0b11110_10001_10001_10001_11110,
        b'E' => 0b11111_10000_11110_10000_11111,
        b'H' => 0b10001_10001_11111_10001_10001,
        b'I' => 0b01110_00100_00100_00100_01110,
        b'L' => 0b10000_10000_10000_10000_11111,
        b'M' => 0b10001_11011_10101_10001_10001,
        b'N' => 0b10001_11001_10101_10011_10001,
        b'O' => 0b01110_10001_10001_10001_01110,
        b'P' => 0b11110_10001_11110_10000_10000,
        b'R' => 0b11110_10001_11110_10010_10001,
        b'S' => 0b01111_10000_01110_00001_11110,
        b'T' => 0b11111_00100_00100_00100_00100,
        b'U' => 0b10001_10001_10001_10001_01110,
        b'Y' => 0b10001_01010_00100_00100_00100,
        b'?' => 0b01110_10001_00110_00000_00100,
        _ => 0,
    }
}

// A text in large, with an indent of two. No line ends in a blank.
#[derive(Drop)]
pub struct Large<'a>(pub &'a str);

impl Display for Large<'_> {
    fn fmt<W: fmt::Write>(&self, f: &mut fmt::Formatter<W>) -> fmt::Result {
        for row in 0..5u32 {
            // The next mark goes to the end of as many columns.
            let mut width = 2usize;
            for letter in self.0.bytes() {
                width = width.saturating_add(1);
                for column in 0..5 {
                    if shape(letter) >> (24 - 5 * row - column) & 1 == 1 {
                        write!(f, "{:>width$}", '#')?;
                        width = 0;
                    }
                    width = width.saturating_add(1);
                }
            }
            writeln!(f)?;
        }
        Ok(())
    }
}
