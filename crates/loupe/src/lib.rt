#![tactic(auto)]

pub mod check;
pub mod numbers;
pub mod plan;
pub mod table;
