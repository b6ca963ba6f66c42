ghost use Rattle.std.specs.Prelude.{◌≡◌, ◌≤◌, drop, length};
ghost use Rattle.std.specs.Iterator.{YieldsFirst, item_count};

use book::book::Book;
use sampling::piece::Piece;

// The kept pieces of a book, in order of entry.
#[derive(Drop)]
pub(crate) struct Kept<'a, B: Book> {
    book: &'a B,
    // how many were given
    given: usize,
    count: usize,
    ghost all: { count ≡ length (B.Book.contents book.now).kept },
}

impl<'a, B: Book> Kept<'a, B> {
    pub(crate) fn of(book: &'a B) -> Kept<'a, B>
        ensures from_the_first { (result.book.now ≡ book.now) × (result.given ≡ 0) }
        ensures few { length (B.Book.contents book.now).kept ≤ 4096 }
    {
        Kept {
            book,
            given: 0,
            count: book.count(),
        }
    }
}

impl<'a, B: Book> Iterator for Kept<'a, B> {
    type Item = Piece;

    ghost next_gives = { YieldsFirst (λ s. drop s.given (B.Book.contents s.book.now).kept) };

    ghost remaining = { item_count (λ s. drop s.given (B.Book.contents s.book.now).kept) };

    #[tactic(auto, using(crate::proofs::Replays::next_read))]
    fn next(&mut self) -> Option<Piece> {
        if self.given >= self.count {
            return None;
        }
        self.given += 1;
        self.book.piece(self.given)
    }
}
