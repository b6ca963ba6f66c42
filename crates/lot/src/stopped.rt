ghost use Rattle.std.specs.Prelude.{◌≡◌};
ghost use Rattle.lot.specs.declared.refusal.EntryRefusal.TheVariants.{NoPlaces};
ghost use Rattle.lot.specs.declared.stopped.Stopped.TheVariants as stopped;

use crate::refusal::EntryRefusal;
use book::refusal::PutRefusal;

// The mains dropped before the end.
#[derive(Clone, Copy, PartialEq, Eq, Debug)]
pub(crate) struct CutOff;

// Why an entry did not come to its answer.
#[derive(Clone, Copy, PartialEq, Eq, Debug)]
pub(crate) enum Stopped {
    Refused(EntryRefusal),
    CutOff,
}

impl From<EntryRefusal> for Stopped {
    ghost from_gives = { λ refusal e. e ≡ stopped.Refused refusal };

    fn from(refusal: EntryRefusal) -> Stopped {
        Stopped::Refused(refusal)
    }
}

impl From<PutRefusal> for Stopped {
    ghost from_gives = { λ _ e. e ≡ stopped.Refused NoPlaces };

    fn from(refusal: PutRefusal) -> Stopped {
        Stopped::Refused(EntryRefusal::from(refusal))
    }
}

impl From<CutOff> for Stopped {
    ghost from_gives = { λ _ e. e ≡ stopped.CutOff };

    fn from(_: CutOff) -> Stopped {
        Stopped::CutOff
    }
}
