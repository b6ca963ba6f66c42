ghost use Rattle.std.specs.Prelude.{◌≡◌, ℕ, ◌+◌, ◌<◌, ◌≤◌, List, [], ◌∷◌, ◌++◌, length, None, MatchResult, ◌≢◌};
ghost use Rattle.book.specs.Meaning.{IsCutOff};
ghost use Rattle.lot.specs.Reports.{sum_of};
ghost use Rattle.lot.specs.Entries.{Woken, Went, Entered, RefusedAs, IsBrokenOff};

use crate::refusal::EntryRefusal;
use crate::report::{Report, sum_of_kept};
use crate::stage::{PressStage, Stage};
use crate::steps::{admitted, give_kept, in_press, judged, press, put};
use crate::stopped::{CutOff, Stopped};
use book::book::Book;
use sampling::judge::Judge;
use sampling::rows::Row;
use sampling::tabled::Tabled;
use sampling::word::Word;

// A lot that takes pieces.
#[derive(Drop)]
pub struct Open;

// A lot that takes no more, and gives its report.
#[derive(Drop)]
pub struct Closed;

// One lot under its judge, with its pieces in a book.
#[derive(Drop)]
pub struct Lot<J, B, S> {
    judge: J,
    book: B,
    state: S,
}

// A waking, up to where the mains drops in it, if it does.
fn waking<J: Judge, B: Book>(
    judge: &mut J,
    book: &mut B,
    cut: Option<(PressStage, B::Cut)>,
) -> Result<(), CutOff>
    ensures woken { MatchResult result
        (λ _. Woken (J.Judge.fresh (J.Judge.plan judge.old)) (B.Book.contents book.old) (J.Judge.says judge.new) (B.Book.contents book.new))
        (λ _. IsCutOff (B.Book.contents book.old) (B.Book.contents book.old).waiting (B.Book.contents book.new) × (cut ≢ None)) }
    ensures plan { J.Judge.plan judge.new ≡ J.Judge.plan judge.old }
    ensures lender { B.Book.lender book.new ≡ B.Book.lender book.old }
{
    press(book, cut)?;
    judge.begin();
    give_kept(judge, book);
    Ok(())
}

// Presses the book, begins the judge and gives it the kept pieces in order.
pub fn wake<J: Judge, B: Book>(mut judge: J, mut book: B) -> Lot<J, B, Open>
    ensures woken { Woken (J.Judge.fresh (J.Judge.plan judge)) (B.Book.contents book) (J.Judge.says result.judge) (B.Book.contents result.book) }
    ensures plan { J.Judge.plan result.judge ≡ J.Judge.plan judge }
    ensures lender { B.Book.lender result.book ≡ B.Book.lender book }
{
    match waking(&mut judge, &mut book, None) {
        Ok(()) => Lot {
            judge,
            book,
            state: Open,
        },
        Err(CutOff) => unreachable(),
    }
}

// The mains drops in a waking, and the book is read anew.
#[tactic(auto, using(crate::proofs::CutLaws::cut_after_press))]
pub fn wake_cut<J: Judge, B: Book>(
    mut judge: J,
    mut book: B,
    stage: PressStage,
    at: B::Cut,
) -> (J, B)
    ensures left { IsCutOff (B.Book.contents book) (B.Book.contents book).waiting (B.Book.contents result.1) }
    ensures plan { J.Judge.plan result.0 ≡ J.Judge.plan judge }
    ensures lender { B.Book.lender result.1 ≡ B.Book.lender book }
{
    if waking(&mut judge, &mut book, Some((stage, at))).is_ok() {
        book.idle_cut(at);
    }
    (judge, book)
}

impl<J, B, S: Drop> Lot<J, B, S> {
    pub(crate) fn apart(self) -> (J, B)
        ensures { (result.0 ≡ self.judge) × (result.1 ≡ self.book) }
    {
        let Lot { judge, book, .. } = self;
        (judge, book)
    }
}

impl<J: Judge, B: Book> Lot<J, B, Open> {
    pub fn word(&self) -> Word
        ensures { result ≡ J.Judge.says self.now.judge [] }
    {
        self.judge.word()
    }

    // How many pieces are kept.
    pub fn count(&self) -> usize
        ensures { result ≡ length (B.Book.contents self.now.book).kept }
    {
        self.book.count()
    }

    pub fn places(&self) -> usize
        ensures { result ≡ (B.Book.contents self.now.book).places }
    {
        self.book.places()
    }

    // An entry, up to where the mains drops in it, if it does.
    #[tactic(auto, using(crate::proofs::CutLaws::put_stopped, crate::proofs::CutLaws::cut_after_put))]
    fn entry(&mut self, row: Row, cut: Option<(Stage, B::Cut)>) -> Result<(Word, usize), Stopped>
        ensures went { Went result row (J.Judge.says self.old.judge) (B.Book.contents self.old.book) (J.Judge.says self.new.judge) (B.Book.contents self.new.book) (self.new ≡ self.old) (cut ≡ None) }
        ensures plan { J.Judge.plan self.new.judge ≡ J.Judge.plan self.old.judge }
        ensures lender { B.Book.lender self.new.book ≡ B.Book.lender self.old.book }
    {
        let piece = admitted(&self.judge, row)?;
        put(&mut self.book, piece, cut)?;
        press(&mut self.book, in_press(cut))?;
        let word = judged(&mut self.judge, piece);
        Ok((word, self.book.count()))
    }

    // Enters the piece of two numbers: writes it to the book, and judges it.
    pub fn enter(&mut self, row: Row) -> Result<(Word, usize), EntryRefusal>
        ensures entered { MatchResult result
            (λ answer. Entered row (J.Judge.says self.old.judge) (B.Book.contents self.old.book) answer.0 answer.1 (J.Judge.says self.new.judge) (B.Book.contents self.new.book))
            (λ e. RefusedAs row (J.Judge.says self.old.judge []) (B.Book.contents self.old.book).places e × (self.new ≡ self.old)) }
        ensures plan { J.Judge.plan self.new.judge ≡ J.Judge.plan self.old.judge }
        ensures lender { B.Book.lender self.new.book ≡ B.Book.lender self.old.book }
    {
        match self.entry(row, None) {
            Ok((word, number)) => Ok((word, number)),
            Err(Stopped::Refused(refusal)) => Err(refusal),
            Err(Stopped::CutOff) => unreachable(),
        }
    }

    // The mains drops in an entry before its answer, and the book is read anew.
    pub fn enter_cut(mut self, row: Row, stage: Stage, at: B::Cut) -> (J, B)
        ensures left { IsBrokenOff row (J.Judge.says self.judge []) (B.Book.contents self.book) (B.Book.contents result.1) }
        ensures plan { J.Judge.plan result.0 ≡ J.Judge.plan self.judge }
        ensures lender { B.Book.lender result.1 ≡ B.Book.lender self.book }
    {
        match self.entry(row, Some((stage, at))) {
            Err(Stopped::CutOff) => {}
            _ => self.book.idle_cut(at),
        }
        self.apart()
    }

    pub fn close(self) -> Lot<J, B, Closed>
        ensures { (result.judge ≡ self.judge) × (result.book ≡ self.book) }
    {
        let (judge, book) = self.apart();
        Lot {
            judge,
            book,
            state: Closed,
        }
    }
}

impl<J: Tabled + Drop, B: Book + Drop> Lot<J, B, Closed> {
    // Takes the lot, and tells what came of it.
    pub fn report(self) -> Report
        ensures word { result.word ≡ J.Judge.says self.judge [] }
        ensures count { result.count ≡ length (B.Book.contents self.book).kept }
        ensures sum { result.sum ≡ sum_of (B.Book.contents self.book).kept }
    {
        let Lot { judge, book, .. } = self;
        Report {
            word: judge.word(),
            count: book.count(),
            sum: sum_of_kept(&book),
        }
    }
}
