// Runs the books over every cut of a record and of a page, over odd areas and over spoiled slots,
// and prints what they leave.
#![tactic(auto)]

mod calls;
mod crc;
mod kinds;
mod lengths;
mod one_record;
mod page_of_four;
mod pieces;
mod ranges;
mod refusals;
mod slots;
mod spoiled;
mod worked;

fn main(rt: HostRuntime) -> anyhow::Result<()> {
    run(&rt)
}

fn run(rt: &HostRuntime) -> anyhow::Result<()> {
    one_record::report(rt)?;
    page_of_four::report(rt)?;
    calls::report(rt)?;
    refusals::report(rt)?;
    lengths::report(rt)?;
    spoiled::report(rt)?;
    ranges::report(rt)?;
    worked::report(rt)
}
