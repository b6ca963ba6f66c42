ghost use Rattle.std.specs.Prelude.{◌≡◌, true, length, take, drop};
ghost use Rattle.sampling.specs.Sequential.{word_on};
ghost use Rattle.lot.specs.Promise.{Promise};
ghost use Rattle.memory.specs.Areas.{slot_count, slots, all_blank};
ghost use Rattle.leeway.specs.Leeway.{leeway_scheme, value_as_good};

use crate::any_judge::drill_over;
use leeway::table::Leeway;
use lot::command::Command;
use lot::moment::Moment;
use memory::area_book::AreaBook;
use memory::cut::Cut;

// A script over a book in a blank area, under a leeway judge:
// the promise in the plan's own words.
pub fn drill_leeway<'a, B: AreaBook<'a>>(
    judge: Leeway,
    area: &'a mut [u8],
    script: &[Command<Cut>],
    log: &mut [Moment],
) -> (Leeway, B)
    ensures promise { all_blank (slots area.old) ≡ true
        → Promise judge.plan.n_t (value_as_good judge.plan.side) (word_on (leeway_scheme judge.plan)) (slot_count area.old) (take (length log.old) script.now) (take (length script.now) log.new) (B.Book.contents result.1).kept }
    ensures rest { drop (length script.now) log.new ≡ drop (length script.now) log.old }
    ensures lender { B.Book.lender result.1 ≡ area.entry.ghost_name }
{
    drill_over(judge, area, script, log)
}
