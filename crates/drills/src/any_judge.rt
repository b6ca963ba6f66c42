ghost use Rattle.std.specs.Prelude.{◌≡◌, true, length, take, drop};
ghost use Rattle.lot.specs.Promise.{Promise};
ghost use Rattle.memory.specs.Areas.{slot_count, slots, all_blank};

use lot::command::Command;
use lot::drill::drill;
use lot::moment::Moment;
use memory::area_book::AreaBook;
use memory::cut::Cut;
use sampling::judge::Judge;

// A script over a book in a blank area, under any judge.
pub fn drill_over<'a, J: Judge, B: AreaBook<'a>>(
    judge: J,
    area: &'a mut [u8],
    script: &[Command<Cut>],
    log: &mut [Moment],
) -> (J, B)
    ensures promise { all_blank (slots area.old) ≡ true
        → Promise (J.Judge.most (J.Judge.plan judge)) (J.Judge.good (J.Judge.plan judge)) (J.Judge.fresh (J.Judge.plan judge)) (slot_count area.old) (take (length log.old) script.now) (take (length script.now) log.new) (B.Book.contents result.1).kept }
    ensures rest { drop (length script.now) log.new ≡ drop (length script.now) log.old }
    ensures lender { B.Book.lender result.1 ≡ area.entry.ghost_name }
{
    drill(judge, B::over(area), script, log)
}
