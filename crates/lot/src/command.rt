use crate::stage::{PressStage, Stage};
use sampling::rows::Row;

// One call, or a power cut in a call or between calls; C says where in the
// book's writing it falls.
#[derive(Clone, Copy)]
pub enum Command<C> {
    Wake,
    Ask,
    Enter(Row),
    CutBetween(C),
    CutWaking(PressStage, C),
    CutEntering(Row, Stage, C),
}
