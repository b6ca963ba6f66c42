ghost use Rattle.std.specs.Prelude.{◌≡◌, Some, None, MatchResult};
ghost use Rattle.control.specs.Span.{Spanned, span_refusal};

use crate::limits::Limits;
use crate::refusal::SpanRefusal;
use leeway::plan::LeewayPlan;
use leeway::table::Leeway;
use sampling::both::Both;
use sampling::sequential::Sequential;

impl Limits {
    // Passes where separate control may run; or the first reason why not.
    fn check(self, f: i32) -> Result<(), SpanRefusal>
        ensures { MatchResult result (λ _. span_refusal self.lower self.upper f ≡ None) (λ e. span_refusal self.lower self.upper f ≡ Some e) }
    {
        if !(1..=1_000).contains(&f) {
            return Err(SpanRefusal::FactorRange);
        }
        if !self.are_in_order() {
            return Err(SpanRefusal::LimitOrder);
        }
        if !self.have_equal_plans() {
            return Err(SpanRefusal::UnequalPlans);
        }
        if !self.deviation_fits(f) {
            return Err(SpanRefusal::DeviationTooLarge);
        }
        Ok(())
    }
}

// The both judge over a lower and an upper limit, where separate control of the
// two may run with the factor f in thousandths; or the first reason why not.
pub fn span(
    lower: LeewayPlan,
    upper: LeewayPlan,
    f: i32,
) -> Result<Both<Leeway, Leeway>, SpanRefusal>
    ensures { MatchResult result (Spanned lower upper f) (λ e. span_refusal lower upper f ≡ Some e) }
{
    Limits { lower, upper }.check(f)?;
    Ok(Both {
        first: Sequential::new(lower),
        second: Sequential::new(upper),
    })
}
