ghost use Rattle.std.specs.Prelude.{◌≡◌, ◌≤◌, true, false, MatchOption};
ghost use Rattle.sampling.specs.Table.{numbered};
ghost use Rattle.sampling.specs.Sequential.{reaches, falls_to, by_line};

use crate::word::Word;

// One line of an acceptability table: the score is held against a and r, either of which may be absent.
pub type Line = (Option<i64>, Option<i64>);

// The number of a line; no table has more than 4,000.
#[derive(Clone, Copy)]
pub struct LineNumber {
    pub n: usize,
    ghost low: { 1 ≤ n },
    ghost high: { n ≤ 4000 },
}

impl LineNumber {
    // The number n, where it is from 1 to that of the last line.
    pub fn up_to(last: usize, n: usize) -> Option<LineNumber>
        ensures { MatchOption result (n ≤ 4000 → numbered last n ≡ false) (λ at. (at.n ≡ n) × (numbered last n ≡ true)) }
    {
        if (1..=last.min(4_000)).contains(&n) {
            Some(LineNumber { n })
        } else {
            None
        }
    }
}

fn reaches(a: Option<i64>, score: i64) -> bool
    ensures { result ≡ reaches a score }
{
    a.is_some_and(|a| score >= a)
}

fn falls_to(r: Option<i64>, score: i64) -> bool
    ensures { result ≡ falls_to r score }
{
    r.is_some_and(|r| score <= r)
}

// The word by one line; `last` says that no line follows.
pub fn by_line(last: bool, score: i64, line: Line) -> Word
    ensures { result ≡ by_line last score line }
{
    if reaches(line.0, score) {
        Word::Accepted
    } else if last || falls_to(line.1, score) {
        Word::NotAccepted
    } else {
        Word::Going
    }
}
