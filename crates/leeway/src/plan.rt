ghost use Rattle.std.specs.Prelude.{◌+◌, ◌≤◌, pos, neg_ℤ, ◌≤ℤ◌};

// Which limit of the specification a leeway plan guards.
#[derive(Clone, Copy, PartialEq, Eq, Debug)]
pub enum Side {
    Lower,
    Upper,
}

// A plan for inspection by variables with known standard deviation, at one
// limit: slope g and intercepts h_A and h_R in thousandths, the curtailment
// n_t, the standard deviation in hundredths of a step, the limit in steps and
// its side. No plan is out of range. The fields stand side by side, as the formulas
// name them.
#[derive(Clone, Copy)]
pub struct LeewayPlan {
    pub g: u32,
    pub h_a: u32,
    pub h_r: u32,
    pub n_t: usize,
    pub sigma: u32,
    pub limit: i32,
    pub side: Side,
    ghost g_low: { 1 ≤ g },
    ghost g_high: { g ≤ 9999 },
    ghost h_a_high: { h_a ≤ 20000 },
    ghost h_r_high: { h_r ≤ 20000 },
    ghost not_both_zero: { 1 ≤ h_a + h_r },
    ghost n_t_low: { 1 ≤ n_t },
    ghost n_t_high: { n_t ≤ 4000 },
    ghost sigma_low: { 1 ≤ sigma },
    ghost sigma_high: { sigma ≤ 1000000 },
    ghost limit_low: { neg_ℤ (pos 100000000) ≤ℤ limit },
    ghost limit_high: { limit ≤ℤ pos 100000000 },
}
