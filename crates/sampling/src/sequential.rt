ghost use Rattle.std.specs.Prelude.{◌≡◌, ◌+◌, ◌≤◌, List, length, pos, ◌+ℤ◌, neg_ℤ, ◌≤ℤ◌};
ghost use Rattle.std.proofs.Common.{ap};
ghost use Rattle.sampling.specs.declared.piece.Piece.{Piece};
ghost use Rattle.sampling.specs.Sequential.{word_on, word_from, word_at, unless_settled, line_at, total};
ghost use Rattle.sampling.specs.States.{says_in, Plus};
ghost use Rattle.sampling.specs.SequentialLaws.{sequential_lawful, sequential_promise};

use crate::judge::Judge;
use crate::line::{Line, by_line};
use crate::piece::Piece;
use crate::plan::SamplingPlan;
use crate::tabled::Tabled;
use crate::tally::Tally;
use crate::word::Word;

// Where a judge stands: going with a tally, or settled for good.
#[derive(Clone, Copy)]
pub enum State {
    Going(Tally),
    Accepted,
    NotAccepted,
}

// The judge of any plan of sequential sampling.
#[derive(Clone, Copy)]
pub struct Sequential<P> {
    plan: P,
    state: State,
}

// The word at this tally, by the plan's line.
fn word_at<P: SamplingPlan>(plan: &P, tally: Tally) -> Word
    ensures { result ≡ word_at (P.SamplingPlan.scheme plan.now) tally.count tally.score }
{
    match plan.line_at(tally.count) {
        Some(line) => by_line(tally.count >= plan.last(), tally.score, line),
        None => Word::NotAccepted,
    }
}

impl State {
    // The tally with one more piece of these points; nothing once settled, or after 4,000 pieces.
    fn plus(self, points: i64) -> Option<Tally>
        requires { (neg_ℤ (pos 2000000000) ≤ℤ points) × (points ≤ℤ pos 2000000000) }
        ensures { Plus self points result }
    {
        match self {
            State::Going(tally) if tally.count < 4000 => Some(Tally {
                count: tally.count + 1,
                score: tally.score + points,
            }),
            _ => None,
        }
    }
}

// The state at this tally, by the plan's line.
fn state_at<P: SamplingPlan>(plan: &P, tally: Tally) -> State
    ensures { (xs : List Piece) → says_in (P.SamplingPlan.scheme plan.now) result xs ≡ unless_settled (word_at (P.SamplingPlan.scheme plan.now) tally.count tally.score) (word_from (P.SamplingPlan.scheme plan.now) tally.count tally.score xs) }
{
    match word_at(plan, tally) {
        Word::Going => State::Going(tally),
        Word::Accepted => State::Accepted,
        Word::NotAccepted => State::NotAccepted,
    }
}

impl<P: SamplingPlan> Sequential<P> {
    pub fn new(plan: P) -> Self
        ensures same_plan { result.plan ≡ plan }
        ensures begun { (xs : List Piece) → says_in (P.SamplingPlan.scheme plan) result.state xs ≡ word_on (P.SamplingPlan.scheme plan) xs }
    {
        Sequential {
            plan,
            state: State::Going(Tally { count: 0, score: 0 }),
        }
    }
}

impl<P: SamplingPlan> Judge for Sequential<P> {
    type Plan = P;

    ghost plan = { λ j. j.plan };

    ghost says = { λ j xs. says_in (P.SamplingPlan.scheme j.plan) j.state xs };

    ghost fresh = { λ p xs. word_on (P.SamplingPlan.scheme p) xs };

    ghost most = { λ p. (P.SamplingPlan.scheme p).last };

    ghost good = { λ p x y. P.SamplingPlan.good p x y };

    ghost lawful = { λ p. sequential_lawful (P.SamplingPlan.scheme p) (P.SamplingPlan.good p) (P.SamplingPlan.sound p) };

    fn begin(&mut self) {
        self.state = State::Going(Tally { count: 0, score: 0 });
    }

    fn take(&mut self, piece: Piece) {
        let points = self.plan.points(piece);
        let sum = self.state.plus(points);
        match (&mut self.state, sum) {
            // a sentence stands
            (State::Accepted, _) => {}
            (State::NotAccepted, _) => {}
            (state, Some(sum)) => *state = state_at(&self.plan, sum),
            (state, None) => *state = State::NotAccepted,
        }
    }

    fn word(&self) -> Word {
        match self.state {
            State::Going(_) => Word::Going,
            State::Accepted => Word::Accepted,
            State::NotAccepted => Word::NotAccepted,
        }
    }

    fn limit(&self) -> usize {
        self.plan.last()
    }
}

// The points of all pieces together.
fn total<P: SamplingPlan>(plan: &P, pieces: &[Piece]) -> i64
    requires { length pieces.now ≤ 4000 }
    ensures { result ≡ total (P.SamplingPlan.scheme plan.now) pieces.now }
{
    let mut score = 0;
    for piece in pieces {
        score += plan.points(*piece);
    }
    score
}

impl<P: SamplingPlan> Tabled for Sequential<P> {
    ghost scored = { λ j xs. total (P.SamplingPlan.scheme j.plan) xs };

    ghost lined = { λ j n. (P.SamplingPlan.scheme j.plan).line n };

    ghost by_plan_alone = { λ i j e. (ap (λ p. total (P.SamplingPlan.scheme p)) e, ap (λ p. (P.SamplingPlan.scheme p).line) e) };

    ghost promise = { λ j. sequential_promise (P.SamplingPlan.scheme j.plan) };

    fn score(&self, pieces: &[Piece]) -> Option<i64> {
        if pieces.len() <= self.plan.last() {
            Some(total(&self.plan, pieces))
        } else {
            None
        }
    }

    fn line(&self, n: usize) -> Option<Line> {
        self.plan.line_at(n)
    }
}
