#![tactic(auto)]

pub mod check;
mod exact;
pub mod numbers;
pub mod plan;
pub mod table;
pub mod tenths;
