// What a call answers.
use std::fmt;
use std::fmt::Display;

// The number of a call: 0, or that of the question that refuses.
#[derive(Clone, Copy)]
pub struct Answer(pub u32);

impl Answer {
    pub fn is_accepted(self) -> bool {
        self.0 == 0
    }
}

impl Display for Answer {
    fn fmt<W: fmt::Write>(&self, f: &mut fmt::Formatter<W>) -> fmt::Result {
        f.write_str(match self.0 {
            0 => "accepted",
            1 => "refused by question 1: a buffer has not its published length",
            2 => "refused by question 2: the old buffer is no overlay",
            3 => "refused by question 3: it is too long",
            4 => "refused by question 4: it has not its form",
            5 => "refused by question 5: an id or a text is beyond its limits",
            6 => "refused by question 6: a time or a number is out of its range",
            7 => "refused by question 7: there would be too many of something",
            8 => "refused by question 8: the finished card is too long",
            _ => "?",
        })
    }
}
