#![tactic(auto)]

mod area;
pub mod area_book;
pub mod cut;
pub mod fram;
mod number;
pub mod page;
mod power;
mod scans;
mod walk;
mod writer;
