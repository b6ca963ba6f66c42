ghost use Rattle.std.specs.Prelude.{◌≡◌, Some};
ghost use Rattle.control.specs.Refusals.{span_number};
ghost use Rattle.control.specs.Texts.{span_text};

use std::error::Error;
use std::fmt;

// Why separate control of two limits may not run.
#[derive(Clone, Copy, PartialEq, Eq, Debug)]
pub enum SpanRefusal {
    // the factor f is out of range
    FactorRange = 1,
    // these are no lower limit and upper limit above it
    LimitOrder = 5,
    // standard deviation or curtailment differ
    UnequalPlans = 6,
    // the standard deviation is too large for the distance of the limits
    DeviationTooLarge = 7,
}

impl SpanRefusal {
    pub fn number(self) -> u8
        ensures { result ≡ span_number self }
    {
        self as u8
    }
}

impl fmt::Display for SpanRefusal {
    ghost output = { λ e. Some (span_text e) };

    fn fmt<W: fmt::Write>(&self, f: &mut fmt::Formatter<W>) -> fmt::Result {
        f.write_str(match self {
            SpanRefusal::FactorRange => "the factor f is out of range",
            SpanRefusal::LimitOrder => "there is no lower limit with an upper limit above it",
            SpanRefusal::UnequalPlans => "the standard deviations or the curtailments differ",
            SpanRefusal::DeviationTooLarge => {
                "the standard deviation is too large for the distance of the limits"
            }
        })
    }
}

impl Error for SpanRefusal {}
