ghost use Rattle.std.specs.Prelude.{◌≡◌, pos, ◌-ℤ◌, ◌*ℤ◌};
ghost use Rattle.plans.specs.Rounding.{Within};
ghost use Rattle.control.specs.Separate.{lower_and_upper, equal_plans, paired, spread};
ghost use Rattle.control.specs.Span.{below, deviation_fits};

use leeway::plan::{LeewayPlan, Side};
use leeway::table::steps_between;
use sampling::line::LineNumber;

// The plans of two limits that are to be controlled together.
#[derive(Clone, Copy)]
pub struct Limits {
    pub lower: LeewayPlan,
    pub upper: LeewayPlan,
}

impl Limits {
    // Whether these guard a lower and an upper limit.
    pub fn are_lower_and_upper(self) -> bool
        ensures { result ≡ lower_and_upper self.lower.side self.upper.side }
    {
        self.lower.side == Side::Lower && self.upper.side == Side::Upper
    }

    // Whether standard deviation and curtailment are equal.
    pub fn have_equal_plans(self) -> bool
        ensures { result ≡ equal_plans self.lower self.upper }
    {
        self.lower.sigma == self.upper.sigma && self.lower.n_t == self.upper.n_t
    }

    // Whether these are a lower and an upper limit with equal standard deviation and curtailment.
    pub fn are_paired(self) -> bool
        ensures { result ≡ paired self.lower self.upper }
    {
        self.are_lower_and_upper() && self.have_equal_plans()
    }

    // U - L in tenths of a step.
    fn width(self) -> i64
        ensures value { result ≡ (self.upper.limit -ℤ self.lower.limit) *ℤ pos 10 }
        ensures within { Within 2000000000 result }
    {
        steps_between(self.lower.limit, self.upper.limit) * 10
    }

    // n·(U - L) in tenths of a step.
    pub fn spread(self, at: LineNumber) -> i64
        ensures value { result ≡ spread self.lower self.upper at.n }
        ensures within { Within 8000000000000 result }
    {
        self.width() * at.n as i64
    }

    // Whether these are a lower limit and an upper limit above it.
    pub fn are_in_order(self) -> bool
        ensures { result ≡ below self.lower self.upper }
    {
        self.are_lower_and_upper() && self.lower.limit < self.upper.limit
    }

    // f·(U - L) in thousandths of a step.
    fn most_deviation(self, f: i32) -> i64
        ensures { result ≡ f *ℤ (self.upper.limit -ℤ self.lower.limit) }
    {
        i64::from(f) * steps_between(self.lower.limit, self.upper.limit)
    }

    // Whether the lower plan's standard deviation is at most f·(U - L); it counts hundredths of a step.
    pub fn deviation_fits(self, f: i32) -> bool
        ensures { result ≡ deviation_fits self.lower self.upper f }
    {
        10 * i64::from(self.lower.sigma) <= self.most_deviation(f)
    }
}
