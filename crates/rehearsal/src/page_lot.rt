// The same judge over a page book: rings that wait when the mains drops, then a lot woken from the
// book that this leaves.
use crate::crash_driver::{read_anew, slot_line, torn_write};
use crate::lots::{clean, until_report};
use book::book::Book;
use leeway::table::Leeway;
use memory::cut::Cut;
use memory::page::PageBook;
use sampling::piece::Piece;
use std::io;

const BETWEEN_CALLS: Cut = Cut { stores: 0, torn: 0 };

// The finding of the second record is being stored.
const IN_RECORD_TWO: Cut = Cut {
    stores: 22,
    torn: 0x80,
};

fn put<B: Book>(rt: &HostRuntime, book: &mut B, piece: Piece) -> io::Result<()> {
    let answer = match book.put(piece) {
        Ok(()) => "is put, and waits",
        Err(_) => "is refused",
    };
    let value = piece.value();
    let places = book.places();
    println!(rt; "Ring {value} {answer}: {places} places.")
}

fn put_all<B: Book>(rt: &HostRuntime, book: &mut B, rings: &[i32]) -> io::Result<()> {
    for ring in rings {
        if let Ok(piece) = Piece::try_from(clean(*ring)) {
            put(rt, book, piece)?;
        }
    }
    Ok(())
}

fn cut_between_calls<B: Book<Cut = Cut>>(
    rt: &HostRuntime,
    book: &mut B,
    rings: &[i32],
) -> io::Result<()> {
    put_all(rt, book, rings)?;
    rt.print("The mains drops before the press.\n")?;
    book.idle_cut(BETWEEN_CALLS);
    read_anew(rt, book, rings.len())
}

fn cut_in_press<B: Book<Cut = Cut>>(
    rt: &HostRuntime,
    book: &mut B,
    rings: &[i32],
) -> io::Result<()> {
    put_all(rt, book, rings)?;
    rt.print("The book is pressed, and the mains drops.\n")?;
    torn_write(rt, rings, 1, IN_RECORD_TWO)?;
    book.press_cut(IN_RECORD_TWO);
    read_anew(rt, book, rings.len())
}

fn waiting_rings<B: Book<Cut = Cut>>(rt: &HostRuntime, book: &mut B) -> io::Result<()> {
    cut_between_calls(rt, book, &[5930, 5909])?;
    cut_in_press(rt, book, &[5921, 5924, 5927])
}

pub fn report(rt: &HostRuntime, judge: Leeway, area: &mut [u8]) -> io::Result<()> {
    rt.print("\nThe lot over a page book in 16 blank slots.\n\n")?;
    waiting_rings(rt, &mut PageBook::new(area))?;
    slot_line(rt, area, 2)?;
    let book = PageBook::new(area);
    until_report(rt, judge, book, &[5939, 5914, 5916, 5932, 5930, 5909])?;
    slot_line(rt, area, 3)
}
