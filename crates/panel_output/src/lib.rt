// What all calls do alike: question 1, which compares lengths, and the output at the end: what was written and then
// zeros, or zeros alone where the call is refused.
#![tactic(auto)]

ghost use Rattle.std.specs.Prelude.{◌≡◌};
ghost use Rattle.basics.specs.Texts.{same};
ghost use Rattle.panel_output.specs.Promises.Ending.{ending_of, put_ending, Cleared, Finished};

// A call is refused by the question of this number, or it has written its output up to a place.
#[derive(Drop)]
pub enum Ending {
    Refused(u32),
    Written(usize),
}

// Question 1: whether buffers have the lengths that are due.
pub fn same_lengths(given: &[usize], due: &[usize]) -> bool
    ensures { result ≡ same given.now due.now }
{
    if given.len() != due.len() {
        return false;
    }
    let mut i = 0;
    while i < given.len() {
        if given[i] != due[i] {
            return false;
        }
        i += 1;
    }
    true
}

// What does not fit is the question's of this number.
pub fn ended(w: Option<usize>, full: u32) -> Ending
    ensures { result ≡ ending_of full w }
{
    match w {
        Some(p) => Ending::Written(p),
        None => Ending::Refused(full),
    }
}

// A state that does not fit is question 7's.
pub fn of_put(w: Option<usize>) -> Ending
    ensures { result ≡ put_ending w }
{
    ended(w, 7)
}

// Zeros from p on.
fn clear_behind(out: &mut [u8], p: usize)
    ensures { Cleared out.old p out.new }
{
    if p < out.len() {
        slices::clear(&mut out[p..]);
    }
}

// The number of a call that ends so; its output is then whole.
pub fn finish(out: &mut [u8], e: Ending) -> u32
    ensures { Finished out.old e out.new result }
{
    match e {
        Ending::Refused(n) => {
            slices::clear(out);
            n
        }
        Ending::Written(p) => {
            clear_behind(out, p);
            0
        }
    }
}
