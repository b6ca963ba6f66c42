#![tactic(auto)]

mod limits;
pub mod refusal;
pub mod separate;
pub mod span;
pub mod worked;
