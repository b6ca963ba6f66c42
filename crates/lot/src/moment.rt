use crate::refusal::EntryRefusal;
use sampling::rows::Row;
use sampling::word::Word;

// What came of one command.
#[derive(Clone, Copy, PartialEq, Eq, Debug)]
pub enum Event {
    // an entry or a question, and no lot is woken
    NotWoken,
    Woken,
    Asked(Word),
    // the word and the piece number
    Answered(Row, Word, usize),
    Refused(EntryRefusal),
    BrokenOff(Row),
    Cut,
}

// One command's event, with the pieces that the book then kept and its places.
#[derive(Clone, Copy, PartialEq, Eq, Debug)]
pub struct Moment {
    pub event: Event,
    pub kept: usize,
    pub places: usize,
}
