#![tactic(auto)]

pub mod book;
pub mod refusal;
