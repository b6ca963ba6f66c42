// Takes apart what may be absent: a table line and its two numbers, the write that a cut tore, a
// kept piece, and a slot of an area.
use crate::lots::clean;
use book::book::Book;
use leeway::tenths::Tenths;
use memory::cut::Cut;
use records::writing::write_of;
use sampling::piece::Piece;
use sampling::tabled::Tabled;
use std::alloc::{AllocError, Global};
use std::io;

// A number of tenths with one decimal, or a dash.
fn tenths_or_dash(heap: Global, tenths: Option<i64>) -> Result<String, AllocError> {
    match tenths {
        Some(tenths) => Tenths(tenths).to_string(heap),
        None => String::from_str(heap, "-"),
    }
}

pub fn table_line<J: Tabled>(rt: &HostRuntime, judge: &J, n: usize) -> io::Result<()> {
    match judge.line(n) {
        Some((a, r)) => {
            let a = tenths_or_dash(rt.alloc(), a)?;
            let r = tenths_or_dash(rt.alloc(), r)?;
            println!(rt; "{n:>2}  {a:>6}  {r:>6}")
        }
        None => println!(rt; "{n:>2}  no line"),
    }
}

// The write that a cut tore, where these rings were being written as pieces from a number on.
pub fn torn_write(rt: &HostRuntime, rings: &[i32], first: usize, cut: Cut) -> io::Result<()> {
    let before = cut.stores / 16;
    let ring = rings.get(before).copied();
    match ring.and_then(|ring| Piece::try_from(clean(ring)).ok()) {
        Some(piece) => write_line(rt, piece, first.saturating_add(before), cut),
        None => rt.print("  No write was torn.\n"),
    }
}

fn write_line(rt: &HostRuntime, piece: Piece, number: usize, cut: Cut) -> io::Result<()> {
    let w = cut.stores % 16 + 1;
    let torn = cut.torn;
    print!(rt; "  Write {w} of record {number}")?;
    match write_of(piece, number, w) {
        Some((place, byte)) => println!(rt;
            " was storing {byte:02X} as byte {place}, which was left as {torn:02X}."
        ),
        None => println!(rt; " is no write."),
    }
}

pub fn slot_line(rt: &HostRuntime, area: &[u8], number: usize) -> io::Result<()> {
    print!(rt; "  Slot {number}:")?;
    let (slots, _) = area.as_chunks::<16>();
    if let Some(slot) = slots.get(number.saturating_sub(1)) {
        bytes(rt, slot)?;
    }
    println!(rt)
}

fn bytes(rt: &HostRuntime, bytes: &[u8]) -> io::Result<()> {
    for byte in bytes {
        let b = *byte;
        print!(rt; " {b:02X}")?;
    }
    Ok(())
}

// What a book, read anew, has kept of the pieces up to the last one given to it.
pub fn read_anew<B: Book>(rt: &HostRuntime, book: &B, last: usize) -> io::Result<()> {
    let kept = book.count();
    let places = book.places();
    println!(rt; "The book is read anew: {kept} kept, {places} places.")?;
    for i in 1..=last {
        kept_or_lost(rt, i, book.piece(i))?;
    }
    Ok(())
}

fn kept_or_lost(rt: &HostRuntime, i: usize, piece: Option<Piece>) -> io::Result<()> {
    match piece {
        Some(piece) => {
            let value = piece.value();
            println!(rt; "  Piece {i} is ring {value}.")
        }
        None => println!(rt;
            "  There is no piece {i}: its ring is lost, and is not measured again."
        ),
    }
}
