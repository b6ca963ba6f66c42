#![tactic(auto)]

pub mod check;
pub mod parameters;
pub mod refusal;
