#![tactic(auto)]

pub mod any_judge;
pub mod both;
pub mod leeway_judge;
pub mod loupe_judge;
