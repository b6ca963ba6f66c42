// The pieces that the books are given, and their comparison.
ghost use Rattle.std.specs.Prelude.{◌≡◌};
ghost use Rattle.cuts.specs.Books.{answer_number};

use anyhow::Context;
use book::book::Book;
use book::refusal::PutRefusal;
use sampling::piece::{Finding, Piece};

const FIRST: [(i32, Finding); 8] = [
    (100, Finding::Clean),
    (-5, Finding::Nonconforming),
    (258, Finding::Clean),
    (-70_000, Finding::Clean),
    (100_000_000, Finding::Nonconforming),
    (-100_000_000, Finding::Clean),
    (0, Finding::Nonconforming),
    (-1, Finding::Clean),
];

pub fn piece(value: i32, finding: Finding) -> anyhow::Result<Piece> {
    Piece::new(value, finding).context("the value is out of range")
}

// The piece that a book gets when it has i pieces.
pub fn sample(i: usize) -> anyhow::Result<Piece> {
    if let Some((value, finding)) = FIRST.get(i) {
        return piece(*value, *finding);
    }
    let steps = i % 4_143 * 48_271;
    let finding = if i % 3 == 0 {
        Finding::Nonconforming
    } else {
        Finding::Clean
    };
    piece(steps as i32 - 100_000_000, finding)
}

// How many of the first n pieces of a book are the samples, up to the first that is not.
pub fn samples_in<B: Book>(book: &B, n: usize) -> anyhow::Result<usize> {
    // by number, as a book is asked for its pieces
    for i in 0..n {
        if book.piece(i.saturating_add(1)) != Some(sample(i)?) {
            return Ok(i);
        }
    }
    Ok(n)
}

// What came of some puts: how many pieces were taken, and the last answer.
#[derive(Clone, Copy)]
pub struct Puts {
    pub taken: usize,
    pub answer: Result<(), PutRefusal>,
}

// Puts n samples from the sample i on, up to the first that is refused.
pub fn put_samples<B: Book>(book: &mut B, i: usize, n: usize) -> anyhow::Result<Puts> {
    // by number: it is told where the first refusal stops it
    for taken in 0..n {
        let answer = book.put(sample(i.saturating_add(taken))?);
        if answer.is_err() {
            return Ok(Puts { taken, answer });
        }
    }
    Ok(Puts {
        taken: n,
        answer: Ok(()),
    })
}

// The number of a put's refusal, 0 where it was taken.
pub fn number_of(answer: Result<(), PutRefusal>) -> u8
    ensures { result ≡ answer_number answer }
{
    answer.err().map_or(0, |refusal| refusal.number())
}

// Whether a further piece is put, pressed and read back after those that are kept.
pub fn goes_on<B: Book>(book: &mut B) -> anyhow::Result<bool> {
    let n = book.count();
    let puts = put_samples(book, n, 1)?;
    book.press();
    let all = n.saturating_add(1);
    Ok(puts.answer.is_ok() && book.count() == all && samples_in(book, all)? == all)
}
