// Areas with spoiled slots, and slots with one byte of a record altered.
use crate::kinds::{KINDS, Kind};
use crate::slots::{altered, area_of, slot_of, with_byte};
use book::book::Book;

const AREAS: [&str; 24] = [
    "", ".", "1", "12..", "1r2..", "1z2..", "1m2..", "1.2..", "12.3.", "r1...", "m1...", "mm...",
    "u....", "12u..", "12u3.", "12um.", "1o2..", "1f2..", "1t2..", "2....", "13...", "11...",
    "1m...", "....r",
];

fn values<B: Book>(rt: &HostRuntime, book: &B) -> anyhow::Result<()> {
    let places = book.places();
    print!(rt; "  {places:>6}")?;
    for i in 1..=book.count() {
        if let Some(piece) = book.piece(i) {
            let value = piece.value();
            print!(rt; "  {value}")?;
        }
    }
    Ok(())
}

fn row(rt: &HostRuntime, letters: &str, kind: Kind) -> anyhow::Result<()> {
    let before = area_of(rt.alloc(), letters)?;
    let mut area = area_of(rt.alloc(), letters)?;
    let name = kind.name();
    print!(rt; "{name}  {letters:<5}")?;
    values(rt, &kind.over(area.as_mut_slice()))?;
    let bytes = altered(before.as_slice(), area.as_slice());
    println!(rt; "  altered {bytes}")?;
    Ok(())
}

// Whether record 1 is still a record with another byte at a place.
fn is_record_with(kind: Kind, place: usize, byte: u8) -> bool {
    let mut slot = with_byte(slot_of(b'1'), place, byte);
    kind.over(&mut slot).count() == 1
}

// How many of the 256 values of a byte leave record 1 a record.
fn records_by(kind: Kind, place: usize) -> usize {
    (0..=255u8)
        .filter(|byte| is_record_with(kind, place, *byte))
        .count()
}

fn bytes_row(rt: &HostRuntime, kind: Kind) -> anyhow::Result<()> {
    let name = kind.name();
    print!(rt; "{name}")?;
    for place in 0..16 {
        let n = records_by(kind, place);
        print!(rt; " {n:>4}")?;
    }
    println!(rt)?;
    Ok(())
}

fn bytes_table(rt: &HostRuntime) -> anyhow::Result<()> {
    println!(rt)?;
    println!(rt;
        "So many of the 256 values of each byte, from byte 0 to byte 15, leave record 1 a record."
    )?;
    println!(rt)?;
    for kind in KINDS {
        bytes_row(rt, kind)?;
    }
    Ok(())
}

pub fn report(rt: &HostRuntime) -> anyhow::Result<()> {
    println!(rt)?;
    println!(rt; "Opened and read: places, the values kept, and how many bytes that altered.")?;
    println!(rt)?;
    println!(rt; "book  slots  places  values")?;
    for letters in AREAS {
        for kind in KINDS {
            row(rt, letters, kind)?;
        }
    }
    bytes_table(rt)
}
