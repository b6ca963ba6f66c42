// Every cut in the writing of a page of four.
use crate::crc::Crc;
use crate::one_record::one_more_if;
use crate::pieces::{goes_on, put_samples, sample, samples_in};
use crate::slots::{altered, area_of};
use book::book::Book;
use memory::cut::Cut;
use memory::page::PageBook;

// what the 256 torn bytes left: by the number of pieces kept, and in all
#[derive(Clone, Copy)]
struct Sums {
    kept: [u32; 5],
    order: u32,
    next: u32,
    fifth: u32,
    fewest: usize,
    most: usize,
}

const NONE: Sums = Sums {
    kept: [0; 5],
    order: 0,
    next: 0,
    fifth: 0,
    fewest: 4096,
    most: 0,
};

impl Sums {
    fn note<B: Book>(&mut self, book: &mut B) -> anyhow::Result<()> {
        let count = book.count();
        if let Some(n) = self.kept.get_mut(count) {
            one_more_if(n, true);
        }
        let order = samples_in(book, count)? == count;
        one_more_if(&mut self.order, order);
        let places = book.places();
        self.fewest = self.fewest.min(places);
        self.most = self.most.max(places);
        let next = goes_on(book)?;
        one_more_if(&mut self.next, next);
        Ok(())
    }
}

// A page book in which four pieces wait, and then a further call.
fn with_four<F: FnOnce(&mut PageBook<'_>)>(area: &mut [u8], then: F) -> anyhow::Result<()>
    requires { F.IsAlwaysCallable then }
{
    let mut book = PageBook::new(area);
    let _ = put_samples(&mut book, 0, 4)?;
    then(&mut book);
    Ok(())
}

fn torn_bytes(rt: &HostRuntime, stores: usize, bytes: &mut Crc) -> anyhow::Result<Sums> {
    let mut sums = NONE;
    let fifth = sample(4)?;
    for torn in 0..=255u8 {
        let cut = Cut { stores, torn };
        let mut area = area_of(rt.alloc(), "........")?;
        with_four(area.as_mut_slice(), |book| book.press_cut(cut))?;
        bytes.add(area.as_slice());
        let mut other = area_of(rt.alloc(), "........")?;
        with_four(other.as_mut_slice(), |book| book.put_cut(fifth, cut))?;
        let same = altered(area.as_slice(), other.as_slice()) == 0;
        one_more_if(&mut sums.fifth, same);
        let mut book = PageBook::new(area.as_mut_slice());
        sums.note(&mut book)?;
    }
    Ok(sums)
}

fn row(rt: &HostRuntime, stores: usize) -> anyhow::Result<()> {
    let mut bytes = Crc::new();
    let sums = torn_bytes(rt, stores, &mut bytes)?;
    print!(rt; "{stores:>6} ")?;
    for n in sums.kept {
        print!(rt; " {n:>4}")?;
    }
    let order = sums.order;
    let next = sums.next;
    let fifth = sums.fifth;
    print!(rt; "  {order:>5}  {next:>4}  {fifth:>5}")?;
    let fewest = sums.fewest;
    let most = sums.most;
    let crc = bytes.value();
    println!(rt; "  {fewest} to {most}  {crc:08x}")?;
    Ok(())
}

fn heading(rt: &HostRuntime) -> anyhow::Result<()> {
    println!(rt)?;
    println!(rt;
        "A page cut off: four pieces wait over 8 blank slots, and the mains drops in the press. So many of"
    )?;
    println!(rt;
        "the 256 torn bytes leave 0, 1, 2, 3 or 4 of them kept; so many leave the oldest in their order,"
    )?;
    println!(rt;
        "let a further piece be put and read back, and leave the bytes that a cut in a fifth put leaves;"
    )?;
    println!(rt; "then the fewest and the most places.")?;
    println!(rt)?;
    println!(rt; "stores     0    1    2    3    4  order  next  fifth  places  bytes")?;
    Ok(())
}

pub fn report(rt: &HostRuntime) -> anyhow::Result<()> {
    heading(rt)?;
    for stores in 0..=64 {
        row(rt, stores)?;
    }
    Ok(())
}
