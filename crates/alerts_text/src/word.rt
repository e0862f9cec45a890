// The marks of the 32 lines as the bits of a word, line 0 the lowest.
ghost use Rattle.std.specs.Prelude.{◌≡◌, cond, ◌+◌, ◌*◌, ◌<◌, eqb, length};
ghost use Rattle.alerts_text.specs.Promises.Word.{bit_of, bits_of, word_of};

fn bit(word: u32) -> u8
    ensures { result ≡ bit_of word }
{
    if word % 2 == 1 { 1 } else { 0 }
}

// Marks each line whose bit is set, and no other.
pub fn spread(marks: &mut [u8], word: u32)
    requires { length marks.old ≡ 32 }
    ensures { marks.new ≡ bits_of 32 word }
{
    let mut left = word;
    let mut k = 0;
    while k < 32 {
        marks[k] = bit(left);
        left = left / 2;
        k += 1;
    }
}

// The word with a bit put below the others.
fn below(word: u32, mark: u8) -> u32
    requires { word < 2147483648 }
    ensures { result ≡ cond (eqb mark 1) 1 0 + 2 * word }
{
    if mark == 1 {
        return 1 + 2 * word;
    }
    2 * word
}

// The word whose bits are the marks.
pub fn gather(marks: &[u8]) -> u32
    requires { length marks.now ≡ 32 }
    ensures { result ≡ word_of marks.now }
{
    let mut word: u32 = 0;
    let mut k = 32;
    while 0 < k {
        k -= 1;
        word = below(word, marks[k]);
    }
    word
}
