ghost use Rattle.std.specs.Prelude.{◌≡◌};
ghost use Rattle.lot.specs.Reports.{sum_of};

use crate::kept::Kept;
use book::book::Book;
use sampling::piece::Piece;
use sampling::word::Word;

// What is told of a closed lot.
#[derive(Clone, Copy, PartialEq, Eq, Debug)]
pub struct Report {
    pub word: Word,
    // the pieces kept
    pub count: usize,
    // of their values
    pub sum: i64,
}

// A piece's value, wide enough to be added up.
fn value(piece: Piece) -> i64
    ensures { result ≡ piece.value }
{
    i64::from(piece.value())
}

// The values of the pieces kept, added up.
pub(crate) fn sum_of_kept<B: Book>(book: &B) -> i64
    ensures { result ≡ sum_of (B.Book.contents book.now).kept }
{
    Kept::of(book).map(value).sum()
}
