ghost use Rattle.std.specs.Prelude.{◌≡◌, ◌≤◌, true, false, pos, Some, Option, MatchOption, MatchResult};
ghost use Rattle.plans.specs.declared.refusal.PlanRefusal.{PlanRefusal};
ghost use Rattle.plans.specs.PlanChecks.{between, Accepts, parameters_refusal};

use crate::parameters::Parameters;
use crate::refusal::PlanRefusal;

// The number as one without a sign, where it lies in the range.
pub fn ranged(low: u32, high: u32, x: i32) -> Option<u32>
    ensures { MatchOption result (between (pos low) (pos high) x ≡ false) (λ n. (pos n ≡ x) × (low ≤ n) × (n ≤ high) × (between (pos low) (pos high) x ≡ true)) }
{
    u32::try_from(x).ok().filter(|n| (low..=high).contains(n))
}

// What both kinds of plan have, where no h may pass `most`; or the first reason why not.
pub fn parameters(
    most: u32,
    g: i32,
    h_a: i32,
    h_r: i32,
    n_t: i32,
) -> Result<Parameters, PlanRefusal>
    ensures { MatchResult result (Accepts most g h_a h_r n_t) (λ e. ((others : Option PlanRefusal) → parameters_refusal most g h_a h_r n_t others ≡ Some e)) }
{
    let g = ranged(1, 9_999, g).ok_or(PlanRefusal::ParameterRange)?;
    let h_a = ranged(0, most, h_a).ok_or(PlanRefusal::ParameterRange)?;
    let h_r = ranged(0, most, h_r).ok_or(PlanRefusal::ParameterRange)?;
    let n_t = ranged(1, 4_000, n_t).ok_or(PlanRefusal::ParameterRange)?;
    if h_a == 0 && h_r == 0 {
        return Err(PlanRefusal::NoIntercept);
    }
    Ok(Parameters { g, h_a, h_r, n_t })
}
