ghost use Rattle.std.specs.Prelude.{◌≡◌, ℕ, List, [], ◌∷◌};
ghost use Rattle.sampling.specs.declared.piece.Piece.{Piece};
ghost use Rattle.sampling.specs.declared.word.Word.{Word};
ghost use Rattle.sampling.specs.Lawful.{Lawful};

use crate::piece::Piece;
use crate::word::Word;

// Decides on a lot, piece by piece, by its plan. What a judge means is what it
// would say now: for every list of further pieces, one word.
pub trait Judge {
    type Plan;

    ghost plan: { Self → Self.Plan };

    ghost says: { Self → List Piece → Word };
    // what it says after begin, by the plan alone
    ghost fresh: { Self.Plan → List Piece → Word };
    // no list of so many pieces is going
    ghost most: { Self.Plan → ℕ };
    // the first piece is at least as good as the second
    ghost good: { Self.Plan → Piece → Piece → Type 0 };

    // Forgets every piece taken.
    fn begin(&mut self)
        ensures plan_kept { plan self.new ≡ plan self.old }
        ensures begun { (xs : List Piece) → says self.new xs ≡ fresh (plan self.old) xs };

    // Takes the next piece.
    fn take(&mut self, piece: Piece)
        ensures plan_kept { plan self.new ≡ plan self.old }
        ensures taken { (xs : List Piece) → says self.new xs ≡ says self.old (piece ∷ xs) };

    // The word on the pieces taken so far.
    fn word(&self) -> Word
        ensures { result ≡ says self.now [] };

    // After so many pieces the lot has its sentence.
    fn limit(&self) -> usize
        ensures { result ≡ most (plan self.now) };

    ghost lawful: { (p : Self.Plan) → Lawful (most p) (good p) (fresh p) };
}
