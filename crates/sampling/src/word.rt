ghost use Rattle.std.specs.Prelude.{Some};
ghost use Rattle.sampling.specs.Texts.{word_text};

use std::fmt;
use std::fmt::Write;

// The word on a lot: one more piece is wanted, or the lot has its sentence.
#[derive(Clone, Copy, PartialEq, Eq, Debug)]
pub enum Word {
    Going,
    Accepted,
    NotAccepted,
}

impl fmt::Display for Word {
    ghost output = { λ w. Some (word_text w) };

    fn fmt<W: fmt::Write>(&self, f: &mut fmt::Formatter<W>) -> fmt::Result {
        match self {
            Word::Going => f.write_str("going"),
            Word::Accepted => f.write_str("accepted"),
            Word::NotAccepted => f.write_str("not accepted"),
        }
    }
}
