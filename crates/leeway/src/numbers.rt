// A leeway plan as it is typed, in range or not. Side 0 is the lower limit, 1 the
// upper; a number too, since one that is no side has to be refused in its turn.
#[derive(Clone, Copy)]
pub struct LeewayNumbers {
    pub g: i32,
    pub h_a: i32,
    pub h_r: i32,
    pub n_t: i32,
    pub sigma: i32,
    pub limit: i32,
    pub side: i32,
}
