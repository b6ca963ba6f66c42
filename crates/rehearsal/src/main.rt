// Follows one lot from its plan to its report, through power cuts, over a FRAM book and over a page
// book; then runs a script of commands with a cut at every stage of an entry.
#![tactic(auto)]

mod commands;
mod crash_driver;
mod fram_lot;
mod lots;
mod page_lot;
mod script;

use crate::crash_driver::table_line;
use leeway::numbers::LeewayNumbers;
use leeway::plan::LeewayPlan;
use leeway::table::Leeway;
use sampling::sequential::Sequential;
use std::io;

// The worked lower limit plan of ISO 8423.
const LOWER: LeewayNumbers = LeewayNumbers {
    g: 1621,
    h_a: 2812,
    h_r: 3914,
    n_t: 49,
    sigma: 1200,
    limit: 5900,
    side: 0,
};

const PLAN: &str =
    "The plan: lower limit 5900 steps, sigma 12.00 steps, g 1.621, h_A 2.812, h_R 3.914, n_t 49.
After n rings the lot is accepted once the leeways sum up to A, and not accepted once they
sum up to R or less. A and R are in steps.

 n       A       R
";

fn main(rt: HostRuntime) -> io::Result<()> {
    match LeewayPlan::new(LOWER) {
        Ok(plan) => run(&rt, Sequential::new(plan)),
        Err(refusal) => {
            let number = refusal.number();
            println!(rt; "The plan is refused with {number}.")
        }
    }
}

fn run(rt: &HostRuntime, judge: Leeway) -> io::Result<()> {
    table(rt, &judge)?;
    fram_lot::report(rt, judge, &mut [0xFF; 256])?;
    page_lot::report(rt, judge, &mut [0xFF; 256])?;
    script::report(rt, judge, &mut [0xFF; 112])
}

fn table(rt: &HostRuntime, judge: &Leeway) -> io::Result<()> {
    rt.print(PLAN)?;
    for n in [1, 2, 3, 4, 5, 6, 7, 8, 9, 48, 49, 50] {
        table_line(rt, judge, n)?;
    }
    Ok(())
}
