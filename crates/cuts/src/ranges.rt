// Values at the ends of their range, with both findings, asked for by every number.
use crate::kinds::{KINDS, Kind};
use crate::pieces::piece;
use crate::slots::area_of;
use book::book::Book;
use sampling::piece::{Finding, Piece};

const ENDS: [(i32, Finding); 4] = [
    (-100_000_000, Finding::Clean),
    (-100_000_000, Finding::Nonconforming),
    (100_000_000, Finding::Clean),
    (100_000_000, Finding::Nonconforming),
];

const NUMBERS: [usize; 7] = [0, 1, 2, 3, 4, 5, usize::MAX];

fn line(rt: &HostRuntime, i: usize, piece: Option<Piece>) -> anyhow::Result<()> {
    match piece {
        Some(piece) => {
            let value = piece.value();
            let finding = piece.finding();
            println!(rt; "piece {i}: {value} {finding}")?;
        }
        None => println!(rt; "piece {i}: none")?,
    }
    Ok(())
}

fn put_ends<B: Book>(book: &mut B) -> anyhow::Result<()> {
    for (value, finding) in ENDS {
        let _ = book.put(piece(value, finding)?);
    }
    book.press();
    Ok(())
}

fn lines<B: Book>(rt: &HostRuntime, name: &str, book: &mut B) -> anyhow::Result<()> {
    put_ends(book)?;
    for i in NUMBERS {
        print!(rt; "{name}  ")?;
        line(rt, i, book.piece(i))?;
    }
    Ok(())
}

fn lines_of(rt: &HostRuntime, kind: Kind) -> anyhow::Result<()> {
    let mut area = area_of(rt.alloc(), ".....")?;
    lines(rt, kind.name(), &mut kind.over(area.as_mut_slice()))
}

pub fn report(rt: &HostRuntime) -> anyhow::Result<()> {
    println!(rt)?;
    println!(rt; "Four pieces at the ends of the range, put, pressed and asked for.")?;
    println!(rt)?;
    for kind in KINDS {
        lines_of(rt, kind)?;
    }
    Ok(())
}
