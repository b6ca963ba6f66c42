ghost use Rattle.std.specs.Prelude.{max, ◌≡◌, true, length, take, drop};
ghost use Rattle.sampling.specs.Sequential.{word_on};
ghost use Rattle.lot.specs.Promise.{Promise};
ghost use Rattle.memory.specs.Areas.{slot_count, slots, all_blank};
ghost use Rattle.sampling.specs.Joint.{jointly};
ghost use Rattle.leeway.specs.Leeway.{leeway_scheme, value_as_good};
ghost use Rattle.loupe.specs.Loupe.{loupe_scheme, finding_as_good};

use crate::any_judge::drill_over;
use leeway::table::Leeway;
use lot::command::Command;
use lot::moment::Moment;
use loupe::table::Loupe;
use memory::area_book::AreaBook;
use memory::cut::Cut;
use sampling::both::Both;

// A script over a book in a blank area, under a leeway and a loupe judge as one:
// the promise in the plan's own words.
pub fn drill_both<'a, B: AreaBook<'a>>(
    judge: Both<Leeway, Loupe>,
    area: &'a mut [u8],
    script: &[Command<Cut>],
    log: &mut [Moment],
) -> (Both<Leeway, Loupe>, B)
    ensures promise { all_blank (slots area.old) ≡ true
        → Promise (max judge.first.plan.n_t judge.second.plan.n_t) (λ x y. value_as_good judge.first.plan.side x y × finding_as_good x.finding y.finding) (λ xs. jointly (word_on (leeway_scheme judge.first.plan) xs) (word_on (loupe_scheme judge.second.plan) xs)) (slot_count area.old) (take (length log.old) script.now) (take (length script.now) log.new) (B.Book.contents result.1).kept }
    ensures rest { drop (length script.now) log.new ≡ drop (length script.now) log.old }
    ensures lender { B.Book.lender result.1 ≡ area.entry.ghost_name }
{
    drill_over(judge, area, script, log)
}
