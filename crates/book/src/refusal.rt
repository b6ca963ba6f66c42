ghost use Rattle.std.specs.Prelude.{◌≡◌, Some};
ghost use Rattle.book.specs.Meaning.{put_number};
ghost use Rattle.book.specs.Texts.{refusal_text};

use std::error::Error;
use std::fmt;
use std::fmt::Write;

// Why a book does not take a piece.
#[derive(Clone, Copy, PartialEq, Eq, Debug)]
pub enum PutRefusal {
    NoPlaces = 11,
}

impl PutRefusal {
    pub fn number(self) -> u8
        ensures { result ≡ put_number self }
    {
        self as u8
    }
}

impl fmt::Display for PutRefusal {
    ghost output = { λ e. Some (refusal_text e) };

    fn fmt<W: fmt::Write>(&self, f: &mut fmt::Formatter<W>) -> fmt::Result {
        match self {
            PutRefusal::NoPlaces => f.write_str("the book has no place left"),
        }
    }
}

impl Error for PutRefusal {}
