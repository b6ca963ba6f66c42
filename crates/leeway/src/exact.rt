ghost use Rattle.std.specs.Prelude.{◌≡◌, pos, neg_ℤ, ◌≤ℤ◌};
ghost use Rattle.plans.specs.Rounding.{half_up, half_down, Within};
ghost use Rattle.leeway.specs.Leeway.{tenth};

// A tenth of a step, in hundred-thousandths of a step.
const TENTH: i64 = 10_000;

// An exact value of a table, in hundred-thousandths of a step. No plan's values come near the bounds.
#[derive(Clone, Copy)]
pub struct Exact {
    pub value: i64,
    ghost low: { neg_ℤ (pos 3000000000000000) ≤ℤ value },
    ghost high: { value ≤ℤ pos 3000000000000000 },
}

impl Exact {
    // In tenths of a step, rounded to the nearest; an exact half goes up.
    #[tactic(auto, unfolding(plans::specs::Rounding::half_up, plans::specs::Rounding::rounded_down))]
    pub fn half_up(self) -> i64
        ensures value { result ≡ half_up tenth self.value }
        ensures within { Within 7000000000000000 result }
    {
        (self.value + self.value + TENTH).div_euclid(TENTH + TENTH)
    }

    // The same; an exact half goes down.
    pub fn half_down(self) -> i64
        ensures { result ≡ half_down tenth self.value }
    {
        let mirrored = Exact { value: -self.value };
        -mirrored.half_up()
    }
}
