ghost use Rattle.std.specs.Prelude.{◌≡◌, ◌*◌, pos, ◌+ℤ◌, ◌-ℤ◌};
ghost use Rattle.plans.specs.Rounding.{Within};
ghost use Rattle.sampling.specs.Sequential.{line_at};
ghost use Rattle.leeway.specs.Leeway.{leeway, leeway_scheme, leeway_line, value_as_good, exact_value, Rounded, DecidedByLeeway, acceptance_value, rejection_value, curtailed_value};
ghost use Rattle.leeway.specs.PlanLaws.{leeway_sound};

use crate::exact::Exact;
use crate::plan::{LeewayPlan, Side};
use sampling::line::{Line, LineNumber};
use sampling::piece::Piece;
use sampling::plan::SamplingPlan;
use sampling::sequential::Sequential;

// The judge for inspection by variables at one limit.
pub type Leeway = Sequential<LeewayPlan>;

// From one value up to another, in steps.
pub fn steps_between(from: i32, to: i32) -> i64
    ensures { result ≡ to -ℤ from }
{
    i64::from(to) - i64::from(from)
}

impl LeewayPlan {
    // g·n + h in thousandths.
    fn with_intercept(&self, at: LineNumber, h: i32) -> i64
        ensures value { result ≡ pos (self.now.g * at.n) +ℤ h }
        ensures within { Within 2200000000 result }
    {
        i64::from(self.g * at.n as u32) + i64::from(h)
    }

    // (g·n + h)·sigma
    fn exact(&self, at: LineNumber, h: i32) -> Exact
        ensures { result.value ≡ exact_value self.now at.n h }
    {
        let value = self.with_intercept(at, h) * i64::from(self.sigma);
        Exact { value }
    }

    // A(n) in tenths of a step.
    fn acceptance(&self, at: LineNumber) -> i64
        ensures { result ≡ acceptance_value self.now at.n }
    {
        self.exact(at, self.h_a as i32).half_up()
    }

    // R(n) in tenths of a step.
    fn rejection(&self, at: LineNumber) -> i64
        ensures { result ≡ rejection_value self.now at.n }
    {
        self.exact(at, -(self.h_r as i32)).half_down()
    }

    // A_t in tenths of a step.
    fn curtailed(&self) -> i64
        ensures { result ≡ curtailed_value self.now }
    {
        self.exact(LineNumber { n: self.n_t }, 0).half_up()
    }

    // A(n) and R(n) below the curtailment; A_t alone at it.
    pub fn line(&self, at: LineNumber) -> Line
        ensures { result ≡ leeway_line self.now at.n }
    {
        if at.n < self.n_t {
            (Some(self.acceptance(at)), Some(self.rejection(at)))
        } else {
            (Some(self.curtailed()), None)
        }
    }

    // How far a piece lies on the good side of the limit, in steps; in 32 bits, since
    // adding up many pieces is quicker so.
    fn leeway(&self, piece: Piece) -> i32
        ensures { result ≡ leeway self.now.side self.now.limit piece.value }
    {
        match self.side {
            Side::Lower => piece.value() - self.limit,
            Side::Upper => self.limit - piece.value(),
        }
    }
}

impl SamplingPlan for LeewayPlan {
    ghost scheme = { leeway_scheme };

    ghost good = { λ p. value_as_good p.side };

    ghost sound = { λ p. leeway_sound p };

    fn points(&self, piece: Piece) -> i64 {
        i64::from(self.leeway(piece)) * 10
    }

    fn line_at(&self, n: usize) -> Option<Line>
        ensures line { result ≡ line_at (leeway_scheme self.now) n }
        ensures rounded { Rounded self.now n }
        ensures decides { DecidedByLeeway self.now }
    {
        LineNumber::up_to(self.n_t, n).map(|at| self.line(at))
    }

    fn last(&self) -> usize {
        self.n_t
    }
}
