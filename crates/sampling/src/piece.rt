ghost use Rattle.std.specs.Prelude.{◌≡◌, pos, neg_ℤ, ◌≤ℤ◌, MatchOption};

// What the loupe shows at the sawn face of a ring.
#[derive(Clone, Copy, PartialEq, Eq, Debug)]
pub enum Finding {
    Clean = 0,
    Nonconforming = 1,
}

// One inspected ring: its measured value in steps, a step being the last place
// of the inspection result, and its finding. No piece is out of range.
#[derive(Clone, Copy, PartialEq, Eq, Debug)]
pub struct Piece {
    value: i32,
    finding: Finding,
    ghost low: { neg_ℤ (pos 100000000) ≤ℤ value },
    ghost high: { value ≤ℤ pos 100000000 },
}

impl Piece {
    // A piece of this value and finding, or nothing where the value is out of range.
    pub fn new(value: i32, finding: Finding) -> Option<Piece>
        ensures { MatchOption result (neg_ℤ (pos 100000000) ≤ℤ value → value ≤ℤ pos 100000000 → ⊥) (λ p. (p.value ≡ value) × (p.finding ≡ finding)) }
    {
        // an `if`, since the piece can be made only where its range is known
        if (-100_000_000..=100_000_000).contains(&value) {
            Some(Piece { value, finding })
        } else {
            None
        }
    }

    pub fn value(self) -> i32
        ensures { result ≡ self.value }
    {
        self.value
    }

    pub fn finding(self) -> Finding
        ensures { result ≡ self.finding }
    {
        self.finding
    }
}

impl Default for Piece {
    ghost use Rattle.std.specs.Prelude.{◌≡◌, pos};
    ghost use Rattle.sampling.specs.declared.piece.Finding.TheVariants.{Clean};

    ghost is_default = { λ p. (p.value ≡ pos 0) × (p.finding ≡ Clean) };

    // What an unused place of a buffer of fixed size holds.
    fn default() -> Piece {
        Piece {
            value: 0,
            finding: Finding::Clean,
        }
    }
}
