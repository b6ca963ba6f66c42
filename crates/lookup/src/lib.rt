#![tactic(auto)]

pub mod entry;
mod master;
pub mod refusal;
pub mod search;
