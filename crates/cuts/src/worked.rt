// One record byte by byte: its writes, and its slot after a cut at the last of them.
use crate::kinds::{KINDS, Kind};
use crate::one_record::cut_off;
use crate::pieces::sample;
use crate::slots::area_of;
use book::book::Book;
use memory::cut::Cut;
use records::writing::write_of;
use sampling::piece::Piece;

fn write_line(rt: &HostRuntime, piece: Piece, number: usize, w: usize) -> anyhow::Result<()> {
    match write_of(piece, number, w) {
        Some((place, byte)) => println!(rt;
            "number {number}, write {w}: byte {place} gets {byte:02X}"
        )?,
        None => println!(rt; "number {number}, write {w}: none")?,
    }
    Ok(())
}

fn writes(rt: &HostRuntime, piece: Piece) -> anyhow::Result<()> {
    for w in 0..18 {
        write_line(rt, piece, 2, w)?;
    }
    for number in [0, 1, 255, 256, 4095, 4096, 4097] {
        write_line(rt, piece, number, 2)?;
    }
    Ok(())
}

fn slot_line(rt: &HostRuntime, kind: Kind, piece: Piece, cut: Cut) -> anyhow::Result<()> {
    let mut area = area_of(rt.alloc(), "1..")?;
    cut_off(kind, area.as_mut_slice(), piece, cut);
    let name = kind.name();
    let stores = cut.stores;
    let torn = cut.torn;
    print!(rt; "{name} {stores} {torn:02X}:")?;
    for byte in area.iter().skip(16).take(16) {
        let b = *byte;
        print!(rt; " {b:02X}")?;
    }
    let book = kind.over(area.as_mut_slice());
    let count = book.count();
    let places = book.places();
    println!(rt; "  count {count} places {places}")?;
    Ok(())
}

const CUTS: [(usize, u8); 5] = [(0, 0xFF), (14, 0x00), (15, 0x00), (15, 0x5A), (16, 0x00)];

pub fn report(rt: &HostRuntime) -> anyhow::Result<()> {
    let piece = sample(1)?;
    println!(rt)?;
    println!(rt;
        "Value -5, nonconforming: its writes; then its slot as piece 2, after so many stores and a torn byte."
    )?;
    println!(rt)?;
    writes(rt, piece)?;
    println!(rt)?;
    for (stores, torn) in CUTS {
        for kind in KINDS {
            slot_line(rt, kind, piece, Cut { stores, torn })?;
        }
    }
    Ok(())
}
