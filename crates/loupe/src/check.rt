ghost use Rattle.loupe.specs.LoupeChecks.{ReadsLoupe};

use crate::numbers::LoupeNumbers;
use crate::plan::LoupePlan;
use plans::check::parameters;
use plans::refusal::PlanRefusal;

impl TryFrom<LoupeNumbers> for LoupePlan {
    type Error = PlanRefusal;

    ghost try_from_gives = { ReadsLoupe };

    fn try_from(numbers: LoupeNumbers) -> Result<LoupePlan, PlanRefusal> {
        let common = parameters(200_000, numbers.g, numbers.h_a, numbers.h_r, numbers.n_t)?;
        Ok(LoupePlan {
            g: common.g,
            h_a: common.h_a,
            h_r: common.h_r,
            n_t: common.n_t as usize,
        })
    }
}

impl LoupePlan {
    // The plan with these numbers, or the first reason why there is none.
    pub fn new(numbers: LoupeNumbers) -> Result<LoupePlan, PlanRefusal>
        ensures { ReadsLoupe numbers result }
    {
        LoupePlan::try_from(numbers)
    }
}
