ghost use Rattle.std.specs.Prelude.{◌≡◌, ℕ, ◌+◌, List, [], ◌∷◌, ◌++◌, None, MatchResult, ◌≢◌};
ghost use Rattle.sampling.specs.declared.piece.Piece.{Piece};
ghost use Rattle.sampling.specs.declared.word.Word.TheVariants.{Going};
ghost use Rattle.sampling.specs.Rows.{row_of};
ghost use Rattle.lot.specs.declared.refusal.EntryRefusal.TheVariants.{NotGoing};
ghost use Rattle.lot.specs.Entries.{RefusedAs};
ghost use Rattle.lot.specs.Steps.{in_press, PutOrCut, PressedOrCut};

use crate::kept::Kept;
use crate::refusal::EntryRefusal;
use crate::stage::{PressStage, Stage};
use crate::stopped::{CutOff, Stopped};
use book::book::Book;
use sampling::judge::Judge;
use sampling::piece::Piece;
use sampling::rows::Row;
use sampling::word::Word;

// Puts the piece, up to where the mains drops before it, in it or right after it, if it does.
#[tactic(auto, using(crate::proofs::CutLaws::cut_before_put, crate::proofs::CutLaws::cut_after_put))]
pub(crate) fn put<B: Book>(
    book: &mut B,
    piece: Piece,
    cut: Option<(Stage, B::Cut)>,
) -> Result<(), Stopped>
    ensures put { PutOrCut result (B.Book.contents book.old) piece (B.Book.contents book.new) (book.new ≡ book.old) (cut ≡ None) }
    ensures lender { B.Book.lender book.new ≡ B.Book.lender book.old }
{
    if let Some((Stage::BeforePut, at)) = cut {
        book.idle_cut(at);
        return Err(Stopped::CutOff);
    }
    if let Some((Stage::InPut, at)) = cut {
        book.put_cut(piece, at);
        return Err(Stopped::CutOff);
    }
    book.put(piece)?;
    if let Some((Stage::BetweenPutAndPress, at)) = cut {
        book.idle_cut(at);
        return Err(Stopped::CutOff);
    }
    Ok(())
}

// What of an entry's cut falls in its press or after it.
pub(crate) fn in_press<C: Copy>(cut: Option<(Stage, C)>) -> Option<(PressStage, C)>
    ensures { result ≡ in_press cut }
{
    match cut {
        Some((Stage::InPress, at)) => Some((PressStage::InPress, at)),
        Some((Stage::BeforeAnswer, at)) => Some((PressStage::AfterPress, at)),
        _ => None,
    }
}

// Presses the book, up to where the mains drops in it or right after it, if it does.
#[tactic(auto, using(crate::proofs::CutLaws::cut_after_press))]
pub(crate) fn press<B: Book>(book: &mut B, cut: Option<(PressStage, B::Cut)>) -> Result<(), CutOff>
    ensures pressed { PressedOrCut result (B.Book.contents book.old) (B.Book.contents book.new) (cut ≡ None) }
    ensures lender { B.Book.lender book.new ≡ B.Book.lender book.old }
{
    if let Some((PressStage::InPress, at)) = cut {
        book.press_cut(at);
        return Err(CutOff);
    }
    book.press();
    if let Some((PressStage::AfterPress, at)) = cut {
        book.idle_cut(at);
        return Err(CutOff);
    }
    Ok(())
}

// Nothing is entered once the lot has its sentence.
fn while_going(word: Word) -> Result<(), EntryRefusal>
    ensures { MatchResult result (λ _. word ≡ Going) (λ e. (e ≡ NotGoing) × (word ≢ Going)) }
{
    match word {
        Word::Going => Ok(()),
        Word::Accepted | Word::NotAccepted => Err(EntryRefusal::NotGoing),
    }
}

// The piece of two numbers that can be entered now, but for places.
pub(crate) fn admitted<J: Judge>(judge: &J, row: Row) -> Result<Piece, EntryRefusal>
    ensures { MatchResult result (λ p. (row_of p ≡ row) × (J.Judge.says judge.now [] ≡ Going)) (λ e. (places : ℕ) → RefusedAs row (J.Judge.says judge.now []) places e) }
{
    let piece = Piece::try_from(row)?;
    while_going(judge.word())?;
    Ok(piece)
}

// Gives the judge one piece more, and asks its word.
pub(crate) fn judged<J: Judge>(judge: &mut J, piece: Piece) -> Word
    ensures plan { J.Judge.plan judge.new ≡ J.Judge.plan judge.old }
    ensures says { (xs : List Piece) → J.Judge.says judge.new xs ≡ J.Judge.says judge.old (piece ∷ xs) }
    ensures word { result ≡ J.Judge.says judge.new [] }
{
    judge.take(piece);
    judge.word()
}

// Gives the judge the kept pieces in order.
pub(crate) fn give_kept<J: Judge, B: Book>(judge: &mut J, book: &B)
    ensures plan { J.Judge.plan judge.new ≡ J.Judge.plan judge.old }
    ensures says { (xs : List Piece) → J.Judge.says judge.new xs ≡ J.Judge.says judge.old ((B.Book.contents book.now).kept ++ xs) }
{
    for kept in Kept::of(book) {
        judge.take(kept);
    }
}
