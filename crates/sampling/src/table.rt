ghost use Rattle.std.specs.Prelude.{◌≡◌, ◌≤◌, List, length, IfOk, MatchOption, ◌≢◌};
ghost use Rattle.sampling.specs.declared.piece.Piece.{Piece};
ghost use Rattle.sampling.specs.Rows.{rows_of};
ghost use Rattle.sampling.specs.Table.{Undecided};

use crate::judge::Judge;
use crate::line::by_line;
use crate::piece::Piece;
use crate::rows::Row;
use crate::tabled::Tabled;
use crate::word::Word;
use std::alloc::{AllocError, Global};

// The word on a list of which every shorter beginning is going: its own line decides.
fn by_own_line<J: Tabled>(judge: &J, pieces: &[Piece]) -> Word
    requires { (1 ≤ length pieces.now) × (Undecided (J.Judge.fresh (J.Judge.plan judge.now)) pieces.now) }
    ensures { result ≡ J.Judge.fresh (J.Judge.plan judge.now) pieces.now }
{
    let n = pieces.len();
    let score = judge.score(pieces).unwrap();
    let line = judge.line(n).unwrap();
    by_line(n == judge.limit(), score, line)
}

// The judge's word on these pieces from the first, found from its score, its lines and its limit alone.
pub fn word_by_table<J: Tabled>(judge: &J, pieces: &[Piece]) -> Word
    ensures { result ≡ J.Judge.fresh (J.Judge.plan judge.now) pieces.now }
{
    // a loop, since a beginning has its own line only where all shorter ones are going
    for n in 1..=pieces.len() {
        match by_own_line(judge, &pieces[..n]) {
            Word::Going => {}
            sentence => return sentence,
        }
    }
    Word::Going
}

// The pieces of these rows, or nothing where a row is no piece.
fn pieces_of(heap: Global, rows: &[Row]) -> Result<Option<Vec<Piece>>, AllocError>
    ensures { IfOk result (λ o. MatchOption o ((ps : List Piece) → rows_of ps ≢ rows.now) (λ v. rows_of v.items ≡ rows.now)) }
{
    let mut pieces = Vec::new(heap);
    for row in rows {
        let Ok(piece) = Piece::try_from(*row) else {
            return Ok(None);
        };
        pieces.push(piece)?;
    }
    Ok(Some(pieces))
}

// The word of a tabled judge on a list of rows, or nothing where a row is no piece.
pub fn word_on_rows<J: Tabled>(
    heap: Global,
    judge: &J,
    rows: &[Row],
) -> Result<Option<Word>, AllocError>
    ensures { IfOk result (λ o. MatchOption o
        ((ps : List Piece) → rows_of ps ≢ rows.now)
        (λ w. (ps : List Piece) × (rows_of ps ≡ rows.now) × (w ≡ J.Judge.fresh (J.Judge.plan judge.now) ps))) }
{
    let pieces = pieces_of(heap, rows)?;
    Ok(pieces.map(|pieces| word_by_table(judge, pieces.as_slice())))
}
