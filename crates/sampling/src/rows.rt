ghost use Rattle.std.specs.Prelude.{◌≡◌, MatchResult, ◌≢◌, Some};
ghost use Rattle.sampling.specs.declared.piece.Piece.{Piece};
ghost use Rattle.sampling.specs.declared.piece.Finding.{Finding};
ghost use Rattle.sampling.specs.Rows.{finding_byte, finding_number, row_of};
ghost use Rattle.sampling.specs.Texts.{finding_text, out_of_range_text};

use crate::piece::{Finding, Piece};
use std::error::Error;
use std::fmt;
use std::fmt::Write;

// Two numbers as they are typed for a piece, in range or not; so the finding is a
// number here.
#[derive(Clone, Copy, PartialEq, Eq, Debug)]
pub struct Row {
    pub value: i32,
    pub finding: i32,
}

// No piece has these numbers.
#[derive(Clone, Copy, PartialEq, Eq, Debug)]
pub struct OutOfRange;

impl fmt::Display for OutOfRange {
    ghost output = { λ _. Some out_of_range_text };

    fn fmt<W: fmt::Write>(&self, f: &mut fmt::Formatter<W>) -> fmt::Result {
        f.write_str("the value or the finding is out of range")
    }
}

impl Error for OutOfRange {}

impl fmt::Display for Finding {
    ghost output = { λ finding. Some (finding_text finding) };

    fn fmt<W: fmt::Write>(&self, f: &mut fmt::Formatter<W>) -> fmt::Result {
        match self {
            Finding::Clean => f.write_str("clean"),
            Finding::Nonconforming => f.write_str("nonconforming"),
        }
    }
}

impl From<Finding> for u8 {
    ghost from_gives = { λ finding byte. byte ≡ finding_byte finding };

    fn from(finding: Finding) -> u8 {
        finding as u8
    }
}

impl TryFrom<i32> for Finding {
    type Error = OutOfRange;

    ghost try_from_gives = { λ number r. MatchResult r (λ finding. finding_number finding ≡ number) (λ _. (finding : Finding) → finding_number finding ≢ number) };

    fn try_from(number: i32) -> Result<Finding, OutOfRange> {
        match number {
            0 => Ok(Finding::Clean),
            1 => Ok(Finding::Nonconforming),
            _ => Err(OutOfRange),
        }
    }
}

impl TryFrom<Row> for Piece {
    type Error = OutOfRange;

    ghost try_from_gives = { λ row r. MatchResult r (λ p. row_of p ≡ row) (λ _. (p : Piece) → row_of p ≢ row) };

    fn try_from(row: Row) -> Result<Piece, OutOfRange> {
        let finding = Finding::try_from(row.finding)?;
        Piece::new(row.value, finding).ok_or(OutOfRange)
    }
}
