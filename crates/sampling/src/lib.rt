#![tactic(auto)]

pub mod both;
pub mod judge;
pub mod judging;
pub mod line;
pub mod piece;
pub mod plan;
pub mod rows;
pub mod sequential;
pub mod table;
pub mod tabled;
pub mod tally;
pub mod word;
