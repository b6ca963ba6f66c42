// Runs the worked examples of the two standards, and prints their tables.
#![tactic(auto)]

#[cfg(test)]
mod tests;

use anyhow::Context;
use control::separate::{separate_control, separate_line};
use control::span::span;
use control::worked::worked_examples;
use leeway::numbers::LeewayNumbers;
use leeway::plan::LeewayPlan;
use leeway::tenths::Tenths;
use loupe::numbers::LoupeNumbers;
use loupe::plan::LoupePlan;
use loupe::table::Loupe;
use sampling::judging::word_on;
use sampling::piece::{Finding, Piece};
use sampling::plan::SamplingPlan;
use sampling::sequential::Sequential;
use sampling::tabled::Tabled;
use sampling::word::Word;
use std::alloc::{AllocError, Global};
use std::fmt;

fn main(rt: HostRuntime) -> anyhow::Result<()> {
    worked_examples();
    run(&rt)
}

fn run(rt: &HostRuntime) -> anyhow::Result<()> {
    voltage_heading(rt)?;
    voltage(rt)?;
    println!(rt)?;
    insulators_heading(rt)?;
    insulators(rt)
}

const VOLTAGES: [i32; 9] = [5930, 5909, 5921, 5924, 5927, 5939, 5914, 5916, 5932];

const LOWER: LeewayNumbers = LeewayNumbers {
    g: 1621,
    h_a: 2812,
    h_r: 3914,
    n_t: 49,
    sigma: 1200,
    limit: 5900,
    side: 0,
};

const UPPER: LeewayNumbers = LeewayNumbers {
    g: 2315,
    h_a: 3826,
    h_r: 5258,
    n_t: 49,
    sigma: 1200,
    limit: 6000,
    side: 1,
};

fn voltage_heading(rt: &HostRuntime) -> anyhow::Result<()> {
    println!(rt;
        "Inspection by variables: output voltage 5950 mV +- 50 mV, standard deviation 12 mV."
    )?;
    println!(rt; "  lower limit 5900 mV: g 1.621, h_A 2.812, h_R 3.914, n_t 49")?;
    println!(rt; "  upper limit 6000 mV: g 2.315, h_A 3.826, h_R 5.258, n_t 49")?;
    println!(rt; "Separate control may run: with the factor 0.220 the deviation may be 22 mV.")?;
    println!(rt;
        "The leeway of a component is its voltage less 5900 mV; Y sums the leeways. The lower limit"
    )?;
    println!(rt;
        "is accepted once Y >= A_L, the upper once Y <= A_U; the lot is not accepted once Y <= R_L"
    )?;
    println!(rt;
        "for a lower limit still going, or Y >= R_U for an upper. It is accepted once both limits are."
    )?;
    println!(rt)?;
    println!(rt; " n     x  leeway    R_L    A_L    Y    A_U    R_U")?;
    Ok(())
}

fn voltages(heap: Global) -> anyhow::Result<Vec<Piece>> {
    let mut pieces = Vec::new(heap);
    for value in VOLTAGES {
        let piece = Piece::new(value, Finding::Clean).context("a voltage is out of range")?;
        pieces.push(piece)?;
    }
    Ok(pieces)
}

fn voltage(rt: &HostRuntime) -> anyhow::Result<()> {
    let lower = LeewayPlan::new(LOWER)?;
    let upper = LeewayPlan::new(UPPER)?;
    let _judge = span(lower, upper, 220).context("separate control may not run")?;
    let pieces = voltages(rt.alloc())?;
    voltage_rows(rt, lower, upper, pieces.as_slice())
}

fn voltage_rows(
    rt: &HostRuntime,
    lower: LeewayPlan,
    upper: LeewayPlan,
    pieces: &[Piece],
) -> anyhow::Result<()> {
    for n in 1..=pieces.len() {
        voltage_row(rt, lower, upper, &pieces[..n])?;
        let word = voltage_words(rt, lower, upper, &pieces[..n])?;
        if word != Word::Going {
            println!(rt; "The lot is {word} at component {n}.")?;
            break;
        }
    }
    Ok(())
}

fn voltage_row(
    rt: &HostRuntime,
    lower: LeewayPlan,
    upper: LeewayPlan,
    pieces: &[Piece],
) -> anyhow::Result<()> {
    let n = pieces.len();
    let x = pieces.last().context("the row has no component")?.value();
    let score = Sequential::new(lower)
        .score(pieces)
        .context("the row is past the curtailment")?;
    let line = separate_line(&lower, &upper, n).context("the table has no such row")?;
    let leeway = x.wrapping_sub(lower.limit);
    let y = score / 10;
    let r_l = text_or(rt.alloc(), line.0.1.map(Tenths), "-")?;
    let a_l = text_or(rt.alloc(), line.0.0.map(Tenths), "-")?;
    let a_u = text_or(rt.alloc(), line.1.0.map(Tenths), "-")?;
    let r_u = text_or(rt.alloc(), line.1.1.map(Tenths), "-")?;
    print!(rt; "{n:>2}  {x:>4}  {leeway:>6}  {r_l:>5}  {a_l:>5}  {y:>3}  {a_u:>5}  {r_u:>5}")?;
    Ok(())
}

fn voltage_words(
    rt: &HostRuntime,
    lower: LeewayPlan,
    upper: LeewayPlan,
    pieces: &[Piece],
) -> anyhow::Result<Word> {
    let lower_word = word_on(&mut Sequential::new(lower), pieces);
    let upper_word = word_on(&mut Sequential::new(upper), pieces);
    let word = separate_control(lower, upper, pieces).context("the plans are no pair")?;
    println!(rt; "  lower {lower_word}, upper {upper_word}, lot {word}")?;
    Ok(word)
}

fn insulators_heading(rt: &HostRuntime) -> anyhow::Result<()> {
    println!(rt; "Inspection by attributes: insulators, g 0.0957, h_A 1.750, h_R 2.247, n_t 98.")?;
    println!(rt;
        "A lot is accepted once it has at most A nonconforming pieces among n, and not accepted"
    )?;
    println!(rt;
        "once it has R. * n is too small to accept, ** n is too small to have R of them."
    )?;
    println!(rt)?;
    println!(rt; " n   A   R")?;
    Ok(())
}

fn insulators(rt: &HostRuntime) -> anyhow::Result<()> {
    let judge = Sequential::new(LoupePlan::new(LoupeNumbers {
        g: 957,
        h_a: 17500,
        h_r: 22470,
        n_t: 98,
    })?);
    for n in (1..=20).chain([97, 98]) {
        insulators_row(rt, &judge, n)?;
    }
    Ok(())
}

// A line counts below zero, since fewer nonconforming pieces are better.
fn insulators_row(rt: &HostRuntime, judge: &Loupe, n: usize) -> anyhow::Result<()> {
    let (a, r) = judge.line(n).context("the table has no such row")?;
    let accepted_to = a.and_then(|a| a.checked_neg());
    let not_accepted_from = r
        .and_then(|r| r.checked_neg())
        .or(accepted_to.and_then(|last| last.checked_add(1)));
    let a = text_or(rt.alloc(), accepted_to, "*")?;
    let r = text_or(
        rt.alloc(),
        not_accepted_from.filter(|r| *r <= n as i64),
        "**",
    )?;
    println!(rt; "{n:>2}  {a:>2}  {r:>2}")?;
    Ok(())
}

// A value as text, or the mark where there is none.
fn text_or<T: fmt::Display + Drop>(
    heap: Global,
    value: Option<T>,
    mark: &str,
) -> Result<String, AllocError> {
    match value {
        Some(value) => value.to_string(heap),
        None => String::from_str(heap, mark),
    }
}
