ghost use Rattle.std.specs.Prelude.{◌≡◌};
ghost use Rattle.cuts.specs.Books.{contents_of, bytes_of, lender_of, contents_in};

use book::book::Book;
use book::refusal::PutRefusal;
use memory::cut::Cut;
use memory::fram::FramBook;
use memory::page::PageBook;
use sampling::piece::Piece;

// The two kinds of book.
#[derive(Clone, Copy)]
pub enum Kind {
    Fram,
    Page,
}

pub const KINDS: [Kind; 2] = [Kind::Fram, Kind::Page];

// A book of either kind; an enum, since no contract can be stated over a `dyn` of a
// trait with an associated type.
#[derive(Drop)]
pub enum AnyBook<'a> {
    Fram(FramBook<'a>),
    Page(PageBook<'a>),
}

impl Kind {
    pub fn name(self) -> &'static str {
        match self {
            Kind::Fram => "FRAM",
            Kind::Page => "page",
        }
    }

    // The book of this kind that the area holds.
    pub fn over(self, area: &mut [u8]) -> AnyBook<'_>
        ensures area { bytes_of result ≡ area.old }
        ensures contents { contents_of result ≡ contents_in self area.old }
        ensures lender { lender_of result ≡ area.entry.ghost_name }
    {
        match self {
            Kind::Fram => AnyBook::Fram(FramBook::new(area)),
            Kind::Page => AnyBook::Page(PageBook::new(area)),
        }
    }
}

impl<'a> Book for AnyBook<'a> {
    type Cut = Cut;

    ghost contents = { contents_of };

    ghost lender = { lender_of };

    fn put(&mut self, piece: Piece) -> Result<(), PutRefusal> {
        match self {
            AnyBook::Fram(book) => book.put(piece),
            AnyBook::Page(book) => book.put(piece),
        }
    }

    fn press(&mut self) {
        match self {
            AnyBook::Fram(book) => book.press(),
            AnyBook::Page(book) => book.press(),
        }
    }

    fn count(&self) -> usize {
        match self {
            AnyBook::Fram(book) => book.count(),
            AnyBook::Page(book) => book.count(),
        }
    }

    fn piece(&self, i: usize) -> Option<Piece> {
        match self {
            AnyBook::Fram(book) => book.piece(i),
            AnyBook::Page(book) => book.piece(i),
        }
    }

    fn places(&self) -> usize {
        match self {
            AnyBook::Fram(book) => book.places(),
            AnyBook::Page(book) => book.places(),
        }
    }

    fn put_cut(&mut self, piece: Piece, cut: Cut) {
        match self {
            AnyBook::Fram(book) => book.put_cut(piece, cut),
            AnyBook::Page(book) => book.put_cut(piece, cut),
        }
    }

    fn press_cut(&mut self, cut: Cut) {
        match self {
            AnyBook::Fram(book) => book.press_cut(cut),
            AnyBook::Page(book) => book.press_cut(cut),
        }
    }

    fn idle_cut(&mut self, cut: Cut) {
        match self {
            AnyBook::Fram(book) => book.idle_cut(cut),
            AnyBook::Page(book) => book.idle_cut(cut),
        }
    }
}
