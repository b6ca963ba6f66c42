// Every cut in the writing of one record.
use crate::crc::Crc;
use crate::kinds::Kind;
use crate::pieces::{goes_on, sample, samples_in};
use crate::slots::area_of;
use book::book::Book;
use memory::cut::Cut;
use sampling::piece::Piece;

// what was done with the 256 torn bytes
#[derive(Clone, Copy, Default)]
struct Sums {
    kept: u32,
    lost: u32,
    earlier: u32,
    next: u32,
}

pub fn one_more_if(n: &mut u32, holds: bool) {
    *n = n.saturating_add(u32::from(holds));
}

impl Sums {
    // A book read anew after a cut in the writing of the piece after so many earlier ones.
    fn note<B: Book>(&mut self, book: &mut B, earlier: usize) -> anyhow::Result<()> {
        let all = earlier.saturating_add(1);
        let count = book.count();
        let kept = count == all && samples_in(book, all)? == all;
        one_more_if(&mut self.kept, kept);
        one_more_if(&mut self.lost, count == earlier);
        let same = samples_in(book, earlier)? == earlier;
        one_more_if(&mut self.earlier, same);
        let next = goes_on(book)?;
        one_more_if(&mut self.next, next);
        Ok(())
    }
}

// The mains drops in the writing of a piece: in its put, or in the press after it,
// since a page book stores nothing in a put.
pub fn cut_off(kind: Kind, area: &mut [u8], piece: Piece, cut: Cut) {
    let mut book = kind.over(area);
    match kind {
        Kind::Fram => book.put_cut(piece, cut),
        Kind::Page => {
            let _ = book.put(piece);
            book.press_cut(cut);
        }
    }
}

// An area that a record is written into, and how many records are in it.
type Start = (&'static str, usize);

fn torn_bytes(
    rt: &HostRuntime,
    kind: Kind,
    start: Start,
    stores: usize,
    bytes: &mut Crc,
) -> anyhow::Result<Sums> {
    let (letters, earlier) = start;
    let mut sums = Sums::default();
    for torn in 0..=255u8 {
        let mut area = area_of(rt.alloc(), letters)?;
        let piece = sample(earlier)?;
        cut_off(kind, area.as_mut_slice(), piece, Cut { stores, torn });
        bytes.add(area.as_slice());
        sums.note(&mut kind.over(area.as_mut_slice()), earlier)?;
    }
    Ok(sums)
}

fn row(rt: &HostRuntime, kind: Kind, starts: &[Start], stores: usize) -> anyhow::Result<()> {
    print!(rt; "{stores:>6}")?;
    let mut bytes = Crc::new();
    let mut earlier: u32 = 0;
    let mut next: u32 = 0;
    for start in starts {
        let sums = torn_bytes(rt, kind, *start, stores, &mut bytes)?;
        let kept = sums.kept;
        let lost = sums.lost;
        print!(rt; "  {kept:>4} {lost:>4}")?;
        earlier = earlier.saturating_add(sums.earlier);
        next = next.saturating_add(sums.next);
    }
    let crc = bytes.value();
    println!(rt; "  {earlier:>7}  {next:>4}  {crc:08x}")?;
    Ok(())
}

fn table(rt: &HostRuntime, kind: Kind, starts: &[Start]) -> anyhow::Result<()> {
    println!(rt)?;
    let name = kind.name();
    print!(rt; "{name:>6}")?;
    for start in starts {
        let (letters, _) = *start;
        print!(rt; "  {letters:>9}")?;
    }
    println!(rt)?;
    print!(rt; "stores")?;
    for _ in starts {
        print!(rt; "  kept lost")?;
    }
    println!(rt; "  earlier  next  bytes")?;
    for stores in 0..=16 {
        row(rt, kind, starts, stores)?;
    }
    Ok(())
}

const FRAM: [Start; 5] = [
    ("12...", 2),
    ("12z..", 2),
    ("12r..", 2),
    ("12u..", 2),
    ("1m2..", 2),
];

const PAGE: [Start; 3] = [(".....", 0), ("12...", 2), ("1r2..", 2)];

pub fn report(rt: &HostRuntime) -> anyhow::Result<()> {
    println!(rt;
        "Slots: . blank, 1 2 3 records, z zeros, r rubbish, u record 3 without its last write,"
    )?;
    println!(rt;
        "m byte 1 right alone, and record 2 with o a value, f a finding, t a tail out of range."
    )?;
    println!(rt)?;
    println!(rt;
        "A record cut off: so many whole stores, then one of the 256 torn bytes. Read anew, the piece"
    )?;
    println!(rt;
        "is kept or lost; after so many cuts the earlier pieces are as before, and a further piece is"
    )?;
    println!(rt; "put and read back. Bytes: CRC-32 of all the areas left.")?;
    table(rt, Kind::Fram, &FRAM)?;
    table(rt, Kind::Page, &PAGE)
}
