#![tactic(auto)]

mod bytes;
pub mod entries;
mod plan;
mod refusal;
