ghost use Rattle.std.specs.Prelude.{◌≡◌, Some};
ghost use Rattle.lot.specs.Entries.{entry_number};
ghost use Rattle.lot.specs.Texts.{refusal_text};
ghost use Rattle.lot.specs.declared.refusal.EntryRefusal.TheVariants as refusal;

use book::refusal::PutRefusal;
use sampling::rows::OutOfRange;
use std::error::Error;
use std::fmt;
use std::fmt::Write;

// Why an entry is turned down; the first that holds.
#[derive(Clone, Copy, PartialEq, Eq, Debug)]
pub enum EntryRefusal {
    // no piece has these two numbers
    OutOfRange = 9,
    // the lot has its sentence
    NotGoing = 10,
    // the book has no places
    NoPlaces = 11,
}

impl EntryRefusal {
    pub fn number(self) -> u8
        ensures { result ≡ entry_number self }
    {
        self as u8
    }
}

impl fmt::Display for EntryRefusal {
    ghost output = { λ e. Some (refusal_text e) };

    fn fmt<W: fmt::Write>(&self, f: &mut fmt::Formatter<W>) -> fmt::Result {
        match self {
            EntryRefusal::OutOfRange => f.write_str("the value or the finding is out of range"),
            EntryRefusal::NotGoing => f.write_str("the lot has its sentence"),
            EntryRefusal::NoPlaces => f.write_str("the book has no place left"),
        }
    }
}

impl Error for EntryRefusal {}

impl From<OutOfRange> for EntryRefusal {
    ghost from_gives = { λ _ e. e ≡ refusal.OutOfRange };

    fn from(_: OutOfRange) -> EntryRefusal {
        EntryRefusal::OutOfRange
    }
}

impl From<PutRefusal> for EntryRefusal {
    ghost from_gives = { λ _ e. e ≡ refusal.NoPlaces };

    fn from(refusal: PutRefusal) -> EntryRefusal {
        match refusal {
            PutRefusal::NoPlaces => EntryRefusal::NoPlaces,
        }
    }
}
