// The label of an alert, as a part of lent bytes.
#![tactic(auto)]

ghost use Rattle.std.specs.Prelude.{◌≡◌};
ghost use Rattle.alerts.specs.Label.{continues, label_of};
ghost use Rattle.alerts.specs.Promises.Label.{Ends};

// Whether a byte goes on with a character.
fn goes_on(b: u8) -> bool
    ensures { result ≡ continues b }
{
    if 128 <= b {
        return b <= 191;
    }
    false
}

// Where the first n characters of s end.
fn characters_end(s: &[u8], n: usize) -> usize
    ensures { Ends s.now n result }
{
    let mut left = n;
    let mut i = 0;
    while i < s.len() {
        if !goes_on(s[i]) {
            if left == 0 {
                return i;
            }
            left -= 1;
        }
        i += 1;
    }
    i
}

// An alert's label: its header, or else its description's first 120 characters.
pub fn label<'a>(present: bool, header: &'a [u8], description: &'a [u8]) -> &'a [u8]
    ensures { result.now ≡ label_of present header.now description.now }
{
    if present {
        return header;
    }
    let e = characters_end(description, 120);
    &description[..e]
}
