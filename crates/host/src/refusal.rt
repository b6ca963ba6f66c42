ghost use Rattle.std.specs.Prelude.{◌≡◌};
ghost use Rattle.host.specs.declared.refusal.Refusal.TheVariants as refusal;
ghost use Rattle.host.specs.Refusals.{refusal_number, answer_of};

use lookup::refusal::LookupRefusal;
use plans::refusal::PlanRefusal;

// Why an entry writes nothing.
#[derive(Clone, Copy, PartialEq, Eq, Debug)]
pub(crate) enum Refusal {
    Plan(PlanRefusal),
    Lookup(LookupRefusal),
    // the output is too short
    TooShort,
    // there is no line with this number
    NoLine,
}

impl From<PlanRefusal> for Refusal {
    ghost from_gives = { λ e r. r ≡ refusal.Plan e };

    fn from(refusal: PlanRefusal) -> Refusal {
        Refusal::Plan(refusal)
    }
}

impl From<LookupRefusal> for Refusal {
    ghost from_gives = { λ e r. r ≡ refusal.Lookup e };

    fn from(refusal: LookupRefusal) -> Refusal {
        Refusal::Lookup(refusal)
    }
}

impl Refusal {
    pub(crate) fn number(self) -> u32
        ensures { result ≡ refusal_number self }
    {
        match self {
            Refusal::Plan(refusal) => u32::from(refusal.number()),
            Refusal::Lookup(refusal) => u32::from(refusal.number()),
            Refusal::TooShort => 100,
            Refusal::NoLine => 101,
        }
    }
}

// What C is answered: 0, or the refusal's number.
pub(crate) fn answer(outcome: Result<(), Refusal>) -> u32
    ensures { result ≡ answer_of outcome }
{
    match outcome {
        Ok(()) => 0,
        Err(refusal) => refusal.number(),
    }
}
