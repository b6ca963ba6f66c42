ghost use Rattle.std.specs.Prelude.{◌≡◌, true, false, pos, neg_ℤ, ◌≤ℤ◌, MatchOption};
ghost use Rattle.plans.specs.PlanChecks.{between};
ghost use Rattle.leeway.specs.LeewayChecks.{ReadsSide, ReadsLeeway};

use crate::numbers::LeewayNumbers;
use crate::plan::{LeewayPlan, Side};
use plans::check::{parameters, ranged};
use plans::refusal::PlanRefusal;

// The limit, where it lies in the range of measured values.
fn measurable(x: i32) -> Option<i32>
    ensures { MatchOption result (between (neg_ℤ (pos 100000000)) (pos 100000000) x ≡ false) (λ l. (l ≡ x) × (neg_ℤ (pos 100000000) ≤ℤ l) × (l ≤ℤ pos 100000000) × (between (neg_ℤ (pos 100000000)) (pos 100000000) x ≡ true)) }
{
    (-100_000_000..=100_000_000).contains(&x).then_some(x)
}

impl TryFrom<i32> for Side {
    type Error = PlanRefusal;

    ghost try_from_gives = { ReadsSide };

    fn try_from(number: i32) -> Result<Side, PlanRefusal> {
        match number {
            0 => Ok(Side::Lower),
            1 => Ok(Side::Upper),
            _ => Err(PlanRefusal::LimitRange),
        }
    }
}

impl TryFrom<LeewayNumbers> for LeewayPlan {
    type Error = PlanRefusal;

    ghost try_from_gives = { ReadsLeeway };

    fn try_from(numbers: LeewayNumbers) -> Result<LeewayPlan, PlanRefusal> {
        let common = parameters(20_000, numbers.g, numbers.h_a, numbers.h_r, numbers.n_t)?;
        let sigma = ranged(1, 1_000_000, numbers.sigma).ok_or(PlanRefusal::DeviationRange)?;
        let limit = measurable(numbers.limit).ok_or(PlanRefusal::LimitRange)?;
        let side = Side::try_from(numbers.side)?;
        Ok(LeewayPlan {
            g: common.g,
            h_a: common.h_a,
            h_r: common.h_r,
            n_t: common.n_t as usize,
            sigma,
            limit,
            side,
        })
    }
}

impl LeewayPlan {
    // The plan with these numbers, or the first reason why there is none.
    pub fn new(numbers: LeewayNumbers) -> Result<LeewayPlan, PlanRefusal>
        ensures { ReadsLeeway numbers result }
    {
        LeewayPlan::try_from(numbers)
    }
}
