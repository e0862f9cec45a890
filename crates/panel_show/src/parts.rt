// What states and cards are made of: a reader of their values, and the values as they are printed.
ghost use Rattle.std.specs.Prelude.{◌≤◌};

use std::fmt::Display;
use std::{fmt, io};

// The place at which a state or a card is read: what is read moves it past. It is total, and reads something also
// where nothing stands.
#[derive(Drop)]
pub struct Reader<'a> {
    bytes: &'a [u8],
    at: usize,
}

impl<'a> Reader<'a> {
    // At the first value, behind the byte that stands at the start.
    pub fn new(bytes: &'a [u8]) -> Self {
        let mut reader = Reader { bytes, at: 0 };
        reader.pass_byte();
        reader
    }

    fn pass_byte(&mut self) {
        self.at = if self.at < self.bytes.len() {
            self.at + 1
        } else {
            0
        };
    }

    // Whether a flag is set, or an optional value is there.
    pub fn flag(&mut self) -> bool {
        let number = formats_read::number(self.bytes, self.at).value;
        self.pass_byte();
        number == 1
    }

    pub fn number(&mut self) -> u64 {
        let number = formats_read::number(self.bytes, self.at);
        self.at = number.next;
        number.value
    }

    pub fn signed(&mut self) -> i64 {
        integers::from_zigzag(self.number())
    }

    pub fn time(&mut self) -> Time {
        Time(self.signed())
    }

    pub fn delay(&mut self) -> Delay {
        Delay(self.signed())
    }

    pub fn text(&mut self) -> &'a [u8] {
        let text = formats_read::text(self.bytes, self.at);
        self.at = text.to;
        &self.bytes[text.from..text.to]
    }

    pub fn degrees(&mut self) -> Degrees {
        let bits = formats_read::float(self.bytes, self.at);
        let past = self.at.saturating_add(8);
        self.at = if past <= self.bytes.len() { past } else { 0 };
        Degrees(bits)
    }

    // A text that may be absent. (Written out: a closure that lends from its reader gets no proof in `optional`.)
    pub fn optional_text(&mut self) -> Option<&'a [u8]> {
        if self.flag() { Some(self.text()) } else { None }
    }

    // Another value that may be absent.
    pub fn optional<T, F: FnOnce(&mut Self) -> T>(&mut self, value: F) -> Option<T>
        requires { F.IsAlwaysCallable value }
    {
        if self.flag() { Some(value(self)) } else { None }
    }
}

// A time of day in Paris, from the seconds since 1970. A time before 1970 stays a number.
#[derive(Clone, Copy)]
pub struct Time(i64);

impl Display for Time {
    fn fmt<W: fmt::Write>(&self, f: &mut fmt::Formatter<W>) -> fmt::Result {
        let Ok(seconds) = u64::try_from(self.0) else {
            return write!(f, "{}", self.0);
        };
        let ahead = calendar::offset(seconds) % 86400;
        let day = (seconds % 86400 + ahead) % 86400;
        write!(f, "{:02}:{:02}:{:02}", day / 3600, day / 60 % 60, day % 60)
    }
}

// A delay of so many seconds; in minutes where they are whole.
#[derive(Clone, Copy)]
pub struct Delay(i64);

impl Display for Delay {
    fn fmt<W: fmt::Write>(&self, f: &mut fmt::Formatter<W>) -> fmt::Result {
        if self.0 == 0 {
            return f.write_str("on time");
        }
        let seconds = self.0.unsigned_abs();
        let side = if self.0 < 0 { "early" } else { "late" };
        if seconds % 60 == 0 {
            write!(f, "{} min {side}", seconds / 60)
        } else {
            write!(f, "{seconds} s {side}")
        }
    }
}

// A number of degrees by the 64 bits of its float: sign, whole part and five digits. What is no number below 256 is a
// question mark.
#[derive(Clone, Copy)]
pub struct Degrees(u64);

// What a whole one is in a fraction that counts 2^-56.
const ONE: u64 = 72057594037927936;

// A float's mantissa, the last 52 bits, as a fraction that counts 2^-56: so does its last bit at an exponent of 1019.
fn fraction(bits: u64, exponent: u32) -> u64
    requires { exponent ≤ 1030 }
{
    let mantissa = bits % 4503599627370496 + 4503599627370496;
    if exponent < 1019 {
        mantissa.checked_shr(1019 - exponent).unwrap_or(0)
    } else {
        mantissa << (exponent - 1019)
    }
}

// With half a unit of the fifth digit.
fn rounded(fraction: u64) -> u64 {
    if fraction < 18000000000000000000 {
        fraction + 360287970190
    } else {
        fraction
    }
}

impl Display for Degrees {
    fn fmt<W: fmt::Write>(&self, f: &mut fmt::Formatter<W>) -> fmt::Result {
        let exponent = (self.0 / 4503599627370496 % 2048) as u32;
        if 1030 < exponent {
            return f.write_str("?");
        }
        if 9223372036854775808 <= self.0 {
            f.write_str("-")?;
        }
        let mut left = rounded(fraction(self.0, exponent));
        write!(f, "{}.", left / ONE)?;
        for _ in 0..5 {
            left = left % ONE * 10;
            write!(f, "{}", left / ONE)?;
        }
        Ok(())
    }
}

// A text, which need not be UTF-8, behind its name.
pub fn say_text(rt: &impl Print, name: &str, text: &[u8]) -> io::Result<()> {
    rt.print(name)?;
    rt.write_all(text)
}

// The same where it is not empty.
pub fn say_any_text(rt: &impl Print, name: &str, text: &[u8]) -> io::Result<()> {
    if text.is_empty() {
        Ok(())
    } else {
        say_text(rt, name, text)
    }
}

// A text behind its name, where it is there.
pub fn say_optional_text(rt: &impl Print, name: &str, text: Option<&[u8]>) -> io::Result<()> {
    match text {
        Some(text) => say_text(rt, name, text),
        None => Ok(()),
    }
}

// A value behind its name, where it is there.
pub fn say_optional<T: Display + Drop>(
    rt: &impl Print,
    name: &str,
    value: Option<T>,
) -> io::Result<()> {
    match value {
        Some(value) => print!(rt; "{name}{value}"),
        None => Ok(()),
    }
}

// A flag's name, where it is set.
pub fn say_flag(rt: &impl Print, name: &str, flag: bool) -> io::Result<()> {
    if flag { rt.print(name) } else { Ok(()) }
}
