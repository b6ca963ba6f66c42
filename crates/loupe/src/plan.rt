ghost use Rattle.std.specs.Prelude.{◌+◌, ◌≤◌};

// A plan for inspection by attributes: slope g and intercepts h_A and h_R in
// ten-thousandths, and the curtailment n_t. No plan is out of range.
#[derive(Clone, Copy)]
pub struct LoupePlan {
    pub g: u32,
    pub h_a: u32,
    pub h_r: u32,
    pub n_t: usize,
    ghost g_low: { 1 ≤ g },
    ghost g_high: { g ≤ 9999 },
    ghost h_a_high: { h_a ≤ 200000 },
    ghost h_r_high: { h_r ≤ 200000 },
    ghost not_both_zero: { 1 ≤ h_a + h_r },
    ghost n_t_low: { 1 ≤ n_t },
    ghost n_t_high: { n_t ≤ 4000 },
}
