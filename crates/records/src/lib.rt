#![tactic(auto)]

pub mod reading;
pub mod slot;
pub mod writing;
