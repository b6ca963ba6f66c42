ghost use Rattle.std.specs.Prelude.{◌≡◌, List, ◌++◌};
ghost use Rattle.sampling.specs.declared.piece.Piece.{Piece};

use crate::judge::Judge;
use crate::piece::Piece;
use crate::word::Word;

// Gives the judge these pieces in order.
fn take_all<J: Judge>(judge: &mut J, pieces: &[Piece])
    ensures plan_kept { J.Judge.plan judge.new ≡ J.Judge.plan judge.old }
    ensures taken { (xs : List Piece) → J.Judge.says judge.new xs ≡ J.Judge.says judge.old (pieces.now ++ xs) }
{
    for piece in pieces {
        judge.take(*piece);
    }
}

// Begins the judge, gives it these pieces in order, and answers its word.
pub fn word_on<J: Judge>(judge: &mut J, pieces: &[Piece]) -> Word
    ensures word { result ≡ J.Judge.fresh (J.Judge.plan judge.old) pieces.now }
    ensures plan_kept { J.Judge.plan judge.new ≡ J.Judge.plan judge.old }
    ensures taken { (xs : List Piece) → J.Judge.says judge.new xs ≡ J.Judge.fresh (J.Judge.plan judge.old) (pieces.now ++ xs) }
{
    judge.begin();
    take_all(judge, pieces);
    judge.word()
}
