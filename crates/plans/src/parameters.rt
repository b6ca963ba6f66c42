ghost use Rattle.std.specs.Prelude.{◌+◌, ◌≤◌};

// g, h_A, h_R and n_t in the ranges that both kinds of plan share.
#[derive(Clone, Copy)]
pub struct Parameters {
    pub g: u32,
    pub h_a: u32,
    pub h_r: u32,
    pub n_t: u32,
    ghost g_low: { 1 ≤ g },
    ghost g_high: { g ≤ 9999 },
    ghost not_both_zero: { 1 ≤ h_a + h_r },
    ghost n_t_low: { 1 ≤ n_t },
    ghost n_t_high: { n_t ≤ 4000 },
}
