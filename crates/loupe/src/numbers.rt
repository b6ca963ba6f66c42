// A loupe plan as it is typed, in range or not.
#[derive(Clone, Copy)]
pub struct LoupeNumbers {
    pub g: i32,
    pub h_a: i32,
    pub h_r: i32,
    pub n_t: i32,
}
