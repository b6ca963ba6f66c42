// Areas of many lengths, filled until a put is refused.
use crate::crc::Crc;
use crate::kinds::{KINDS, Kind};
use crate::pieces::{Puts, number_of, put_samples, samples_in};
use crate::slots::altered_from;
use book::book::Book;

const LENGTHS: [usize; 17] = [
    0, 1, 15, 16, 17, 31, 32, 33, 47, 48, 63, 64, 65, 111, 65_535, 65_536, 65_605,
];

#[derive(Clone, Copy)]
struct Filled {
    places: usize,
    puts: Puts,
    read: usize,
}

fn fill<B: Book>(book: &mut B) -> anyhow::Result<Filled> {
    let places = book.places();
    let puts = put_samples(book, 0, 5_000)?;
    book.press();
    let n = book.count();
    Ok(Filled {
        places,
        puts,
        read: samples_in(book, n)?,
    })
}

// Where the last whole slot ends, of at most 4,096.
fn end_of_slots(length: usize) -> usize {
    length.min(65_536) / 16 * 16
}

fn row(rt: &HostRuntime, length: usize, kind: Kind) -> anyhow::Result<()> {
    let before = vec![in rt.alloc(); 0xFFu8; length]?;
    let mut area = vec![in rt.alloc(); 0xFFu8; length]?;
    let f = fill(&mut kind.over(area.as_mut_slice()))?;
    let name = kind.name();
    let places = f.places;
    let taken = f.puts.taken;
    print!(rt; "{length:>6}  {name}  {places:>6}  {taken:>5}")?;
    let answer = number_of(f.puts.answer);
    let read = f.read;
    let beyond = altered_from(end_of_slots(length), before.as_slice(), area.as_slice());
    let mut bytes = Crc::new();
    bytes.add(area.as_slice());
    let crc = bytes.value();
    println!(rt; "  {answer:>6}  {read:>9}  {beyond:>6}  {crc:08x}")?;
    Ok(())
}

pub fn report(rt: &HostRuntime) -> anyhow::Result<()> {
    println!(rt)?;
    println!(rt;
        "Blank areas of so many bytes, filled until a put is refused, and pressed: the pieces read back,"
    )?;
    println!(rt; "and how many bytes were altered beyond the last slot.")?;
    println!(rt)?;
    println!(rt; "length  book  places  taken  answer  read back  beyond  bytes")?;
    for length in LENGTHS {
        for kind in KINDS {
            row(rt, length, kind)?;
        }
    }
    Ok(())
}
