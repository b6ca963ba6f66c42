#![tactic(auto)]

pub mod command;
pub mod drill;
mod kept;
pub mod lot;
pub mod moment;
pub mod refusal;
pub mod report;
pub mod stage;
mod standing;
mod steps;
mod stopped;
