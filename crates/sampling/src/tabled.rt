ghost use Rattle.std.specs.Prelude.{◌≡◌, ℕ, List, length, ℤ, nat_le};
ghost use Rattle.sampling.specs.declared.piece.Piece.{Piece};
ghost use Rattle.sampling.specs.Table.{Line, LinePromise, where_true, numbered};

use crate::judge::Judge;
use crate::line::Line;
use crate::piece::Piece;

// A judge whose plan can be written out as a table: the score of a list of
// pieces, held against the line of its length, gives the word.
pub trait Tabled: Judge {
    ghost scored: { Self → List Piece → ℤ };

    ghost lined: { Self → ℕ → Line };

    // The score of a list of at most limit pieces; otherwise nothing.
    fn score(&self, pieces: &[Piece]) -> Option<i64>
        ensures { result ≡ where_true (nat_le (length pieces.now) (Self.Judge.most (Self.Judge.plan self.now))) (scored self.now pieces.now) };

    // Line n, for n from 1 to the limit; otherwise nothing.
    fn line(&self, n: usize) -> Option<Line>
        ensures { result ≡ where_true (numbered (Self.Judge.most (Self.Judge.plan self.now)) n) (lined self.now n) };

    ghost by_plan_alone: { (i j : Self) → Self.Judge.plan i ≡ Self.Judge.plan j → (scored i ≡ scored j) × (lined i ≡ lined j) };

    ghost promise: { (j : Self) → LinePromise (Self.Judge.most (Self.Judge.plan j)) (Self.Judge.fresh (Self.Judge.plan j)) (scored j) (lined j) };
}
