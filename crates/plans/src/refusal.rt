ghost use Rattle.std.specs.Prelude.{◌≡◌, Some};
ghost use Rattle.plans.specs.Refusals.{refusal_number};
ghost use Rattle.plans.specs.Texts.{refusal_text};

use std::error::Error;
use std::fmt;

// Why numbers make no plan.
#[derive(Clone, Copy, PartialEq, Eq, Debug)]
pub enum PlanRefusal {
    // g, h_A, h_R or n_t
    ParameterRange = 1,
    // h_A and h_R are both zero
    NoIntercept = 2,
    // the standard deviation
    DeviationRange = 3,
    // the limit is out of range, or there is no such side
    LimitRange = 4,
}

impl PlanRefusal {
    pub fn number(self) -> u8
        ensures { result ≡ refusal_number self }
    {
        self as u8
    }
}

impl fmt::Display for PlanRefusal {
    ghost output = { λ e. Some (refusal_text e) };

    fn fmt<W: fmt::Write>(&self, f: &mut fmt::Formatter<W>) -> fmt::Result {
        f.write_str(match self {
            PlanRefusal::ParameterRange => "g, h_A, h_R or n_t is out of range",
            PlanRefusal::NoIntercept => "h_A and h_R are both zero",
            PlanRefusal::DeviationRange => "the standard deviation is out of range",
            PlanRefusal::LimitRange => "the limit is out of range, or there is no such side",
        })
    }
}

impl Error for PlanRefusal {}
