// What is done with a lot over either book, told as it goes.
use crate::crash_driver::{read_anew, torn_write};
use book::book::Book;
use leeway::table::Leeway;
use lot::lot::{Lot, Open, wake};
use lot::stage::Stage;
use memory::cut::Cut;
use sampling::judge::Judge;
use sampling::rows::Row;
use std::io;

type OpenLot<B> = Lot<Leeway, B, Open>;

pub fn clean(value: i32) -> Row {
    Row { value, finding: 0 }
}

fn woken<B: Book>(rt: &HostRuntime, lot: &OpenLot<B>) -> io::Result<()> {
    let kept = lot.count();
    let places = lot.places();
    let word = lot.word();
    println!(rt; "The lot is woken: {kept} kept, {places} places, {word}.")
}

fn enter<B: Book>(rt: &HostRuntime, lot: &mut OpenLot<B>, ring: i32) -> io::Result<()> {
    match lot.enter(clean(ring)) {
        Ok((word, number)) => println!(rt; "Ring {ring} is entered: piece {number}, {word}."),
        Err(refusal) => {
            let number = refusal.number();
            println!(rt; "Ring {ring} is entered: refused with {number}.")
        }
    }
}

fn enter_all<B: Book>(rt: &HostRuntime, lot: &mut OpenLot<B>, rings: &[i32]) -> io::Result<()> {
    woken(rt, lot)?;
    for ring in rings {
        enter(rt, lot, *ring)?;
    }
    Ok(())
}

// Wakes a lot and enters rings; in the entry of one more the mains drops, and the book is read
// anew.
pub fn until_cut<B: Book<Cut = Cut> + Drop>(
    rt: &HostRuntime,
    judge: Leeway,
    book: B,
    rings: &[i32],
    last: i32,
    cut: Cut,
) -> io::Result<()> {
    let mut lot = wake(judge, book);
    enter_all(rt, &mut lot, rings)?;
    println!(rt; "Ring {last} is entered, and the mains drops before the answer.")?;
    let number = lot.count().saturating_add(1);
    torn_write(rt, &[last], number, cut)?;
    let (_, book) = lot.enter_cut(clean(last), Stage::InPut, cut);
    read_anew(rt, &book, number)
}

// Wakes a lot, enters rings, closes it, and tells its report.
pub fn until_report<B: Book + Drop>(
    rt: &HostRuntime,
    judge: Leeway,
    book: B,
    rings: &[i32],
) -> io::Result<()> {
    let mut lot = wake(judge, book);
    enter_all(rt, &mut lot, rings)?;
    let report = lot.close().report();
    let word = report.word;
    let count = report.count;
    let sum = report.sum;
    println!(rt; "The lot is closed. Report: {word}, {count} pieces, sum of values {sum}.")
}
