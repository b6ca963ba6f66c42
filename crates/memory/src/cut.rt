// Where the mains drops in the writing of an area: after so many whole stores, the
// next one leaves the torn byte in its place, and nothing is stored after it.
#[derive(Clone, Copy)]
pub struct Cut {
    pub stores: usize,
    pub torn: u8,
}
