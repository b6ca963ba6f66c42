ghost use Rattle.std.specs.Prelude.{◌*◌, ◌≤◌, pos, neg_ℤ, ◌≤ℤ◌};

// How many pieces were taken, and the score that they made. No piece adds or
// takes more than 2,000,000,000 points, so the score stays far from overflow.
#[derive(Clone, Copy)]
pub struct Tally {
    pub count: usize,
    pub score: i64,
    ghost few: { count ≤ 4000 },
    ghost low: { neg_ℤ (pos (2000000000 * count)) ≤ℤ score },
    ghost high: { score ≤ℤ pos (2000000000 * count) },
}
