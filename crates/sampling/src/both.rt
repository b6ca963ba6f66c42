ghost use Rattle.std.specs.Prelude.{max};
ghost use Rattle.sampling.specs.Joint.{jointly};
ghost use Rattle.sampling.specs.JointLaws.{joint_lawful};

use crate::judge::Judge;
use crate::piece::Piece;
use crate::word::Word;

// Two judges as one: accepted when both say so, not accepted when either does.
#[derive(Clone, Copy, Drop)]
pub struct Both<A, B> {
    pub first: A,
    pub second: B,
}

impl<A: Judge, B: Judge> Judge for Both<A, B> {
    type Plan = (A::Plan, B::Plan);

    ghost plan = { λ j. (A.Judge.plan j.first, B.Judge.plan j.second) };

    ghost says = { λ j xs. jointly (A.Judge.says j.first xs) (B.Judge.says j.second xs) };

    ghost fresh = { λ p xs. jointly (A.Judge.fresh p.0 xs) (B.Judge.fresh p.1 xs) };

    ghost most = { λ p. max (A.Judge.most p.0) (B.Judge.most p.1) };

    ghost good = { λ p x y. A.Judge.good p.0 x y × B.Judge.good p.1 x y };

    ghost lawful = { λ p. joint_lawful (A.Judge.lawful p.0) (B.Judge.lawful p.1) };

    fn begin(&mut self) {
        self.first.begin();
        self.second.begin();
    }

    fn take(&mut self, piece: Piece) {
        self.first.take(piece);
        self.second.take(piece);
    }

    fn word(&self) -> Word {
        match (self.first.word(), self.second.word()) {
            (Word::NotAccepted, _) => Word::NotAccepted,
            (_, Word::NotAccepted) => Word::NotAccepted,
            (Word::Accepted, Word::Accepted) => Word::Accepted,
            _ => Word::Going,
        }
    }

    fn limit(&self) -> usize {
        self.first.limit().max(self.second.limit())
    }
}
