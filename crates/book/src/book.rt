ghost use Rattle.std.specs.Prelude.{◌≡◌, ℕ, ◌+◌, ◌≤◌, [], ◌∷◌, ◌++◌, length, OnErr};
ghost use Rattle.book.specs.Meaning.{Contents, all_of, piece_at, Put, pressed, IsCutOff};

use crate::refusal::PutRefusal;
use sampling::piece::Piece;

// Memory that keeps the pieces of one lot, in order of entry, through power cuts.
pub trait Book {
    // where in its writing a cut falls
    type Cut: Copy;

    ghost contents: { Self → Contents };

    // what the book has borrowed, by its ghost name; whoever lent it then knows it afterwards
    ghost lender: { Self → ℕ };

    fn put(&mut self, piece: Piece) -> Result<(), PutRefusal>
        ensures put { Put result (contents self.old) piece (contents self.new) }
        ensures refused { OnErr result (self.new ≡ self.old) }
        ensures lender { lender self.new ≡ lender self.old };

    fn press(&mut self)
        ensures pressed { contents self.new ≡ pressed (contents self.old) }
        ensures lender { lender self.new ≡ lender self.old };

    // How many pieces are kept.
    fn count(&self) -> usize
        ensures value { result ≡ length (contents self.now).kept }
        ensures few { length (all_of (contents self.now)) + (contents self.now).places ≤ 4096 };

    // The kept piece i, from 1.
    fn piece(&self, i: usize) -> Option<Piece>
        ensures { result ≡ piece_at (contents self.now).kept i };

    fn places(&self) -> usize
        ensures { result ≡ (contents self.now).places };

    // The mains drops in a put, and the book is read anew.
    fn put_cut(&mut self, piece: Piece, cut: Self::Cut)
        ensures cut { IsCutOff (contents self.old) ((contents self.old).waiting ++ (piece ∷ [])) (contents self.new) }
        ensures lender { lender self.new ≡ lender self.old };

    // The mains drops in a press.
    fn press_cut(&mut self, cut: Self::Cut)
        ensures cut { IsCutOff (contents self.old) (contents self.old).waiting (contents self.new) }
        ensures lender { lender self.new ≡ lender self.old };

    // The mains drops between calls.
    fn idle_cut(&mut self, cut: Self::Cut)
        ensures cut { IsCutOff (contents self.old) (contents self.old).waiting (contents self.new) }
        ensures lender { lender self.new ≡ lender self.old };
}
