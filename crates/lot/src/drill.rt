ghost use Rattle.std.specs.Prelude.{◌≡◌, ℕ, List, [], length, take, drop};
ghost use Rattle.book.specs.Meaning.{Blank};
ghost use Rattle.lot.specs.Promise.{Promise};
ghost use Rattle.lot.specs.Runs.{places_after};

use crate::command::Command;
use crate::moment::Moment;
use crate::standing::Standing;
use book::book::Book;
use sampling::judge::Judge;

// Runs the commands of a script, each from what the one before left, and logs a
// moment for each; as many commands as the log has room for.
pub fn drill<J: Judge, B: Book>(
    judge: J,
    book: B,
    script: &[Command<B::Cut>],
    log: &mut [Moment],
) -> (J, B)
    ensures promise { Blank (B.Book.contents book) → Promise (J.Judge.most (J.Judge.plan judge)) (J.Judge.good (J.Judge.plan judge)) (J.Judge.fresh (J.Judge.plan judge)) (B.Book.contents book).places (take (length log.old) script.now) (take (length script.now) log.new) (B.Book.contents result.1).kept }
    ensures rest { drop (length script.now) log.new ≡ drop (length script.now) log.old }
    ensures left { Blank (B.Book.contents book) → (J.Judge.plan result.0 ≡ J.Judge.plan judge) × ((B.Book.contents result.1).waiting ≡ []) × (places_after (B.Book.contents book).places (take (length script.now) log.new) ≡ (B.Book.contents result.1).places) }
    ensures lender { B.Book.lender result.1 ≡ B.Book.lender book }
{
    let mut standing = Standing::NotWoken(judge, book);
    let within = &script[..script.len().min(log.len())];
    // by index: a zip with `iter_mut` leaves a proof with the log's length alone
    for (i, command) in within.iter().enumerate() {
        (standing, log[i]) = standing.step(*command);
    }
    standing.apart()
}
