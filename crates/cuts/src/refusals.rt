// Puts where there are no places.
use crate::kinds::Kind;
use crate::pieces::{number_of, put_samples, sample};
use crate::slots::{altered, area_of};
use book::book::Book;
use book::refusal::PutRefusal;
use memory::cut::Cut;
use std::alloc::Global;

// An area in which so many waiting pieces leave no places.
#[derive(Clone, Copy)]
struct Full {
    kind: Kind,
    letters: &'static str,
    waiting: usize,
}

const CASES: [(Kind, &str, usize); 12] = [
    (Kind::Fram, "", 0),
    (Kind::Fram, "1", 0),
    (Kind::Fram, "123", 0),
    (Kind::Fram, "1mm", 0),
    (Kind::Fram, "1.r", 0),
    (Kind::Fram, "1r3.", 0),
    (Kind::Page, "", 0),
    (Kind::Page, "1", 0),
    (Kind::Page, "12u", 0),
    (Kind::Page, "...r", 0),
    (Kind::Page, "..", 2),
    (Kind::Page, "....", 4),
];

#[derive(Clone, Copy)]
struct Refused {
    places: usize,
    answer: Result<(), PutRefusal>,
    count: usize,
}

fn put_more<B: Book>(book: &mut B, waiting: usize) -> anyhow::Result<Refused> {
    let _ = put_samples(book, 0, waiting)?;
    let places = book.places();
    let puts = put_samples(book, waiting, 1)?;
    Ok(Refused {
        places,
        answer: puts.answer,
        count: book.count(),
    })
}

// The same put with the mains dropping at its first store.
fn put_more_cut<B: Book<Cut = Cut>>(book: &mut B, waiting: usize) -> anyhow::Result<()> {
    let _ = put_samples(book, 0, waiting)?;
    book.put_cut(sample(waiting)?, Cut { stores: 0, torn: 0 });
    Ok(())
}

fn altered_in_a_cut(heap: Global, full: Full) -> anyhow::Result<usize> {
    let before = area_of(heap, full.letters)?;
    let mut area = area_of(heap, full.letters)?;
    put_more_cut(&mut full.kind.over(area.as_mut_slice()), full.waiting)?;
    Ok(altered(before.as_slice(), area.as_slice()))
}

fn row(rt: &HostRuntime, full: Full) -> anyhow::Result<()> {
    let before = area_of(rt.alloc(), full.letters)?;
    let mut area = area_of(rt.alloc(), full.letters)?;
    let r = put_more(&mut full.kind.over(area.as_mut_slice()), full.waiting)?;
    let name = full.kind.name();
    let letters = full.letters;
    let waiting = full.waiting;
    print!(rt; "{name}  {letters:<5}  {waiting:>7}")?;
    let places = r.places;
    let answer = number_of(r.answer);
    let count = r.count;
    let bytes = altered(before.as_slice(), area.as_slice());
    let in_a_cut = altered_in_a_cut(rt.alloc(), full)?;
    print!(rt; "  {places:>6}  {answer:>6}  {count:>5}")?;
    println!(rt; "  {bytes:>7}  {in_a_cut:>5}")?;
    Ok(())
}

pub fn report(rt: &HostRuntime) -> anyhow::Result<()> {
    println!(rt)?;
    println!(rt;
        "A put where there are no places: its answer, the count after it, and how many bytes it altered,"
    )?;
    println!(rt; "done and cut off at once.")?;
    println!(rt)?;
    println!(rt; "book  slots  waiting  places  answer  count  altered    cut")?;
    for (kind, letters, waiting) in CASES {
        row(
            rt,
            Full {
                kind,
                letters,
                waiting,
            },
        )?;
    }
    Ok(())
}
