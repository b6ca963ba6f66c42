// A plan of the master table: slope and intercepts in thousandths, and the curtailment.
#[derive(Clone, Copy)]
pub struct Entry {
    pub g: u32,
    pub h_a: u32,
    pub h_r: u32,
    pub n_t: u32,
}
