ghost use Rattle.std.specs.Prelude.{◌≡◌};
ghost use Rattle.lot.specs.declared.command.Command.TheVariants as command;
ghost use Rattle.lot.specs.Standings.{judge_of, book_of, Noted, Steps};

use crate::command::Command;
use crate::lot::{Lot, Open, wake, wake_cut};
use crate::moment::{Event, Moment};
use crate::stage::{PressStage, Stage};
use book::book::Book;
use sampling::judge::Judge;
use sampling::rows::Row;

// What stands between two commands: a judge and a book, or a lot woken from them.
#[derive(Drop)]
pub(crate) enum Standing<J, B> {
    NotWoken(J, B),
    Woken(Lot<J, B, Open>),
}

impl<J: Judge, B: Book> Standing<J, B> {
    pub(crate) fn apart(self) -> (J, B)
        ensures { (result.0 ≡ judge_of self) × (result.1 ≡ book_of self) }
    {
        match self {
            Standing::NotWoken(judge, book) => (judge, book),
            Standing::Woken(lot) => lot.apart(),
        }
    }

    // Does one command, and tells its moment.
    pub(crate) fn step(self, command: Command<B::Cut>) -> (Self, Moment)
        ensures { Steps J.Judge B.Book command self result.0 result.1 }
    {
        match command {
            Command::Wake => {
                let (judge, book) = self.apart();
                Standing::Woken(wake(judge, book)).noted(Event::Woken)
            }
            Command::Ask => self.ask(),
            Command::Enter(row) => self.enter(row),
            Command::CutBetween(at) => self.cut_between(at),
            Command::CutWaking(stage, at) => self.cut_waking(stage, at),
            Command::CutEntering(row, stage, at) => self.cut_entering(row, stage, at),
        }
    }

    fn ask(self) -> (Self, Moment)
        ensures { Steps J.Judge B.Book command.Ask self result.0 result.1 }
    {
        match self {
            Standing::Woken(lot) => {
                let word = lot.word();
                Standing::Woken(lot).noted(Event::Asked(word))
            }
            not_woken => not_woken.noted(Event::NotWoken),
        }
    }

    fn enter(self, row: Row) -> (Self, Moment)
        ensures { Steps J.Judge B.Book (command.Enter row) self result.0 result.1 }
    {
        match self {
            Standing::Woken(mut lot) => match lot.enter(row) {
                Ok((word, number)) => {
                    Standing::Woken(lot).noted(Event::Answered(row, word, number))
                }
                Err(refusal) => Standing::Woken(lot).noted(Event::Refused(refusal)),
            },
            not_woken => not_woken.noted(Event::NotWoken),
        }
    }

    fn cut_between(self, at: B::Cut) -> (Self, Moment)
        ensures { Steps J.Judge B.Book (command.CutBetween at) self result.0 result.1 }
    {
        let (judge, mut book) = self.apart();
        book.idle_cut(at);
        Standing::NotWoken(judge, book).noted(Event::Cut)
    }

    fn cut_waking(self, stage: PressStage, at: B::Cut) -> (Self, Moment)
        ensures { Steps J.Judge B.Book (command.CutWaking stage at) self result.0 result.1 }
    {
        let (judge, book) = self.apart();
        let (judge, book) = wake_cut(judge, book, stage, at);
        Standing::NotWoken(judge, book).noted(Event::Cut)
    }

    fn cut_entering(self, row: Row, stage: Stage, at: B::Cut) -> (Self, Moment)
        ensures { Steps J.Judge B.Book (command.CutEntering row stage at) self result.0 result.1 }
    {
        match self {
            Standing::NotWoken(judge, mut book) => {
                book.idle_cut(at);
                Standing::NotWoken(judge, book).noted(Event::Cut)
            }
            Standing::Woken(lot) => {
                let (judge, book) = lot.enter_cut(row, stage, at);
                Standing::NotWoken(judge, book).noted(Event::BrokenOff(row))
            }
        }
    }

    // The moment of an event, after which the lot stands so.
    fn noted(self, event: Event) -> (Self, Moment)
        ensures { Noted B.Book.contents self event result.0 result.1 }
    {
        let (kept, places) = match &self {
            Standing::NotWoken(_, book) => (book.count(), book.places()),
            Standing::Woken(lot) => (lot.count(), lot.places()),
        };
        let moment = Moment {
            event,
            kept,
            places,
        };
        (self, moment)
    }
}
