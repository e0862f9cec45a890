// The command line's words, and the files that they name.
ghost use Rattle.std.specs.Prelude.{◌≤◌, vec_len, IfOk, IfSome};

use std::alloc::Global;
use std::env::{Env, FillError};
use std::fs::{File, Files};
use std::io;

// How long a word is at most.
const WORD: usize = 4096;

// How much of a file is read: one byte more than a message may have, so that a longer one is refused as too long.
const FILE: usize = 1048577;

// A word; none that is too long is kept.
#[derive(Drop)]
pub enum Word {
    Whole(Vec<u8>),
    TooLong,
}

// The bytes of a word; a word that is too long has none, and where there is no word there are none.
pub fn bytes(word: Option<&Word>) -> &[u8] {
    match word {
        Some(Word::Whole(bytes)) => bytes.as_slice(),
        Some(Word::TooLong) | None => &[],
    }
}

// Up to 18 digits at a word's start as a number; 0 where it begins with none.
pub fn decimal(word: &[u8]) -> i64 {
    let digits = word.iter().take(18).take_while(|b| b.is_ascii_digit());
    let digits = &word[..digits.count()];
    let number = str::from_utf8(digits).ok().and_then(|n| n.parse().ok());
    number.unwrap_or(0)
}

// All words, the program's own name the first.
pub fn all(rt: &impl Env, alloc: Global) -> io::Result<Vec<Word>> {
    let mut words = Vec::new(alloc);
    let mut buf = [0; WORD];
    for i in 0..usize::MAX {
        let word = match rt.arg(i, &mut buf) {
            Ok(length) => Word::Whole(buf[..length].to_vec(alloc)?),
            Err(FillError::TooLong) => Word::TooLong,
            Err(FillError::NotPresent) => break,
        };
        words.push(word)?;
    }
    Ok(words)
}

// The name of a file that a word is; or why it is none.
fn path(word: Option<&Word>) -> Result<&str, &'static str> {
    match word {
        Some(Word::Whole(name)) => str::from_utf8(name).map_err(|_| "Invalid argument"),
        Some(Word::TooLong) => Err("File name too long"),
        None => Err("Invalid argument"),
    }
}

// The system's words of an error, without its number.
fn without_number(words: &str) -> &str {
    words
        .split_once(" (os error ")
        .map_or(words, |(before, _)| before)
}

// The bytes of the file that a word names. Where it does not open, standard error says what is wrong with it.
pub fn file<R: Files + Eprint + AllocGlobal>(
    rt: &R,
    word: Option<&Word>,
) -> io::Result<Option<Vec<u8>>>
    ensures { IfOk result (λ read. IfSome read (λ bytes. vec_len bytes ≤ FILE)) }
{
    let path = match path(word) {
        Ok(path) => path,
        Err(why) => {
            eprintln!(rt; "the name of a file: {why}")?;
            return Ok(None);
        }
    };
    match File::open(rt, path) {
        Ok(mut file) => Ok(Some(program_io::read_at_most(rt.alloc(), &mut file, FILE)?)),
        Err(e) => {
            let words = format!(in rt.alloc(); "{e}")?;
            eprintln!(rt; "{path}: {}", without_number(words.as_str()))?;
            Ok(None)
        }
    }
}
