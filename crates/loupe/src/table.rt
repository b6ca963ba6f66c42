ghost use Rattle.std.specs.Prelude.{◌≡◌, ◌*◌, pos};
ghost use Rattle.sampling.specs.Sequential.{line_at};
ghost use Rattle.loupe.specs.Loupe.{loupe_scheme, loupe_line, finding_as_good, line_below, Counted, DecidedByCount, acceptance_number, rejection_number, curtailed_number};
ghost use Rattle.loupe.specs.PlanLaws.{loupe_sound};

use crate::plan::LoupePlan;
use sampling::line::{Line, LineNumber};
use sampling::piece::{Finding, Piece};
use sampling::plan::SamplingPlan;
use sampling::sequential::Sequential;

// The judge for inspection by attributes.
pub type Loupe = Sequential<LoupePlan>;

// A whole piece, in ten-thousandths of a piece.
const WHOLE_PIECE: i32 = 10_000;

#[tactic(auto, unfolding(plans::specs::Rounding::rounded_down))]
impl LoupePlan {
    // g·n in ten-thousandths of a piece.
    fn slope(&self, at: LineNumber) -> i32
        ensures { result ≡ pos (self.now.g * at.n) }
    {
        (self.g * at.n as u32) as i32
    }

    // A(n)
    fn acceptance(&self, at: LineNumber) -> i32
        ensures { result ≡ acceptance_number self.now at.n }
    {
        (self.slope(at) - self.h_a as i32).div_euclid(WHOLE_PIECE)
    }

    // R(n)
    fn rejection(&self, at: LineNumber) -> i32
        ensures { result ≡ rejection_number self.now at.n }
    {
        -(-(self.slope(at) + self.h_r as i32)).div_euclid(WHOLE_PIECE)
    }

    // A_t
    fn curtailed(&self) -> i32
        ensures { result ≡ curtailed_number self.now }
    {
        self.slope(LineNumber { n: self.n_t })
            .div_euclid(WHOLE_PIECE)
    }

    // The line where the number is below the curtailment.
    fn line_below(&self, at: LineNumber) -> Line
        ensures { result ≡ line_below self.now at.n }
    {
        let acceptance = i64::from(self.acceptance(at));
        let rejection = i64::from(self.rejection(at));
        ((acceptance >= 0).then_some(-acceptance), Some(-rejection))
    }

    // A(n) and R(n) below the curtailment; A_t alone at it.
    fn line(&self, at: LineNumber) -> Line
        ensures { result ≡ loupe_line self.now at.n }
    {
        if at.n < self.n_t {
            self.line_below(at)
        } else {
            (Some(-i64::from(self.curtailed())), None)
        }
    }
}

impl SamplingPlan for LoupePlan {
    ghost scheme = { loupe_scheme };

    ghost good = { λ p x y. finding_as_good x.finding y.finding };

    ghost sound = { λ p. loupe_sound p };

    fn points(&self, piece: Piece) -> i64 {
        match piece.finding() {
            Finding::Clean => 0,
            Finding::Nonconforming => -1,
        }
    }

    fn line_at(&self, n: usize) -> Option<Line>
        ensures line { result ≡ line_at (loupe_scheme self.now) n }
        ensures counted { Counted self.now n }
        ensures decides { DecidedByCount self.now }
    {
        LineNumber::up_to(self.n_t, n).map(|at| self.line(at))
    }

    fn last(&self) -> usize {
        self.n_t
    }
}
