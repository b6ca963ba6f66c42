// So many puts, and what a press or a cut between the calls makes of them.
use crate::kinds::{AnyBook, KINDS, Kind};
use crate::pieces::{Puts, number_of, put_samples};
use crate::slots::area_of;
use book::book::Book;
use memory::cut::Cut;
use records::slot::is_blank;

const AT_ONCE: Cut = Cut { stores: 0, torn: 0 };

#[derive(Clone, Copy)]
struct State {
    puts: Puts,
    count: usize,
    places: usize,
}

// So many puts, and then a further call.
fn put_then<F: FnOnce(&mut AnyBook<'_>)>(
    book: &mut AnyBook<'_>,
    puts: usize,
    then: F,
) -> anyhow::Result<State>
    requires { F.IsAlwaysCallable then }
{
    let puts = put_samples(book, 0, puts)?;
    then(book);
    Ok(State {
        puts,
        count: book.count(),
        places: book.places(),
    })
}

// How many slots are not blank.
fn written(area: &[u8]) -> usize {
    let (slots, _) = area.as_chunks::<16>();
    slots.iter().filter(|slot| !is_blank(slot)).count()
}

fn row(rt: &HostRuntime, kind: Kind, puts: usize) -> anyhow::Result<()> {
    let mut area = area_of(rt.alloc(), "......")?;
    let s = put_then(&mut kind.over(area.as_mut_slice()), puts, |_| {})?;
    let name = kind.name();
    let taken = s.puts.taken;
    let answer = number_of(s.puts.answer);
    print!(rt; "{name}  {puts:>4}  {taken:>5}  {answer:>6}")?;
    columns(rt, kind, puts, |_| {})?;
    columns(rt, kind, puts, |book| book.press())?;
    columns(rt, kind, puts, |book| book.idle_cut(AT_ONCE))?;
    println!(rt)?;
    Ok(())
}

fn columns<F: FnOnce(&mut AnyBook<'_>)>(
    rt: &HostRuntime,
    kind: Kind,
    puts: usize,
    then: F,
) -> anyhow::Result<()>
    requires { F.IsAlwaysCallable then }
{
    let mut area = area_of(rt.alloc(), "......")?;
    let s = put_then(&mut kind.over(area.as_mut_slice()), puts, then)?;
    let count = s.count;
    let places = s.places;
    let slots = written(area.as_slice());
    print!(rt; "  {count:>5} {places:>6} {slots:>7}")?;
    Ok(())
}

fn heading(rt: &HostRuntime) -> anyhow::Result<()> {
    println!(rt)?;
    println!(rt;
        "Puts into 6 blank slots: the pieces taken, the last answer, 0 or the refusal; then count, places"
    )?;
    println!(rt;
        "and slots written, with no further call, after a press, and after a cut between the calls."
    )?;
    println!(rt)?;
    println!(rt;
        "                           with no further call         after a press           after a cut"
    )?;
    print!(rt; "book  puts  taken  answer")?;
    for _ in 0..3 {
        print!(rt; "  count places written")?;
    }
    println!(rt)?;
    Ok(())
}

pub fn report(rt: &HostRuntime) -> anyhow::Result<()> {
    heading(rt)?;
    for kind in KINDS {
        for puts in 0..9 {
            row(rt, kind, puts)?;
        }
    }
    Ok(())
}
