ghost use Rattle.std.specs.Prelude.{◌≡◌};
ghost use Rattle.sampling.specs.declared.piece.Piece.{Piece};
ghost use Rattle.sampling.specs.Sequential.{Scheme, Sound, line_at};

use crate::line::Line;
use crate::piece::Piece;

// A plan of sequential sampling: what a piece adds to the score, and the lines
// that the score is held against.
pub trait SamplingPlan {
    ghost scheme: { Self → Scheme };
    // the first piece is at least as good as the second
    ghost good: { Self → Piece → Piece → Type 0 };

    fn points(&self, piece: Piece) -> i64
        ensures { result ≡ (scheme self.now).points piece };

    fn line_at(&self, n: usize) -> Option<Line>
        ensures { result ≡ line_at (scheme self.now) n };

    // The piece number of the last line.
    fn last(&self) -> usize
        ensures { result ≡ (scheme self.now).last };

    ghost sound: { (p : Self) → Sound (scheme p) (good p) };
}
