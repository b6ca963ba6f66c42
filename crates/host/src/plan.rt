ghost use Rattle.std.specs.Prelude.{◌≡◌, Some, None, MatchResult};
ghost use Rattle.host.specs.Plans.{Has, refusal_of, line_of};

use leeway::numbers::LeewayNumbers;
use leeway::plan::LeewayPlan;
use loupe::numbers::LoupeNumbers;
use loupe::plan::LoupePlan;
use plans::refusal::PlanRefusal;
use sampling::line::Line;
use sampling::plan::SamplingPlan;

// C names the kind by a number: this is a loupe plan; 0 and 1 are a leeway plan's
// lower and upper limit.
const LOUPE: i32 = 2;

// A plan of either kind.
#[derive(Clone, Copy)]
pub(crate) enum Plan {
    Leeway(LeewayPlan),
    Loupe(LoupePlan),
}

impl Plan {
    // The plan with these numbers, the kind standing as the side; or the first
    // reason why there is none.
    pub(crate) fn new(numbers: LeewayNumbers) -> Result<Plan, PlanRefusal>
        ensures { MatchResult result (λ plan. Has numbers plan × (refusal_of numbers ≡ None)) (λ e. refusal_of numbers ≡ Some e) }
    {
        let LeewayNumbers {
            g,
            h_a,
            h_r,
            n_t,
            ..
        } = numbers;
        match numbers.side {
            LOUPE => Ok(Plan::Loupe(LoupePlan::new(LoupeNumbers { g, h_a, h_r, n_t })?)),
            _ => Ok(Plan::Leeway(LeewayPlan::new(numbers)?)),
        }
    }

    pub(crate) fn line_at(&self, n: usize) -> Option<Line>
        ensures { result ≡ line_of self.now n }
    {
        match self {
            Plan::Leeway(plan) => plan.line_at(n),
            Plan::Loupe(plan) => plan.line_at(n),
        }
    }
}
