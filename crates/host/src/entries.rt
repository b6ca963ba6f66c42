ghost use Rattle.std.specs.Prelude.{◌≡◌};
ghost use Rattle.lookup.specs.Looked.{looked_up};
ghost use Rattle.host.specs.Refusals.{answer_of};
ghost use Rattle.host.specs.Plans.{line_of};
ghost use Rattle.host.specs.Entries.{typed, LookupTold, check_answer, line_answer, line_bytes, LineEntry};

use crate::bytes::{store_line, store_plan};
use crate::plan::Plan;
use crate::refusal::{Refusal, answer};
use leeway::numbers::LeewayNumbers;
use lookup::search::look_up;

fn write_plan(q_pr: u32, q_cr: u32, out: &mut [u8]) -> Result<(), Refusal>
    ensures { LookupTold (looked_up q_pr q_cr) out.old (answer_of result) out.new }
{
    let plan = look_up(q_pr, q_cr)?;
    store_plan(out, plan)
}

// The plan of the master table: 0 and g, h_A, h_R and n_t, each in four bytes,
// the lowest first; or the refusal's number, and nothing written.
#[unsafe(no_mangle)]
pub extern "C" fn yifrandel_lookup(q_pr: u32, q_cr: u32, out: &mut [u8]) -> u32
    ensures { LookupTold (looked_up q_pr q_cr) out.old result out.new }
{
    answer(write_plan(q_pr, q_cr, out))
}

fn check_plan(numbers: LeewayNumbers) -> Result<(), Refusal>
    ensures { answer_of result ≡ check_answer numbers }
{
    let _plan = Plan::new(numbers)?;
    Ok(())
}

// Whether these numbers make a plan of this kind, 0 lower, 1 upper, 2 loupe: 0, or the refusal's number.
#[unsafe(no_mangle)]
pub extern "C" fn yifrandel_plan_check(
    kind: i32,
    g: i32,
    h_a: i32,
    h_r: i32,
    n_t: i32,
    sigma: i32,
    limit: i32,
) -> u32
    ensures { result ≡ check_answer (typed kind g h_a h_r n_t sigma limit) }
{
    answer(check_plan(LeewayNumbers {
        g,
        h_a,
        h_r,
        n_t,
        sigma,
        limit,
        side: kind,
    }))
}

fn write_line_of(plan: &Plan, n: u32, out: &mut [u8]) -> Result<(), Refusal>
    ensures answer { answer_of result ≡ line_answer (line_of plan.now n) out.old }
    ensures bytes { out.new ≡ line_bytes (line_of plan.now n) out.old }
{
    let line = plan.line_at(n as usize).ok_or(Refusal::NoLine)?;
    store_line(out, line)
}

fn write_line(numbers: LeewayNumbers, n: u32, out: &mut [u8]) -> Result<(), Refusal>
    ensures { LineEntry numbers n out.old (answer_of result) out.new }
{
    let plan = Plan::new(numbers)?;
    write_line_of(&plan, n, out)
}

// Line n of the table of the plan with these numbers: 0, and for a and then for r
// a byte that says whether it is present and its eight bytes, the lowest first;
// or the refusal's number, and nothing written.
#[unsafe(no_mangle)]
pub extern "C" fn yifrandel_table_line(
    kind: i32,
    g: i32,
    h_a: i32,
    h_r: i32,
    n_t: i32,
    sigma: i32,
    limit: i32,
    n: u32,
    out: &mut [u8],
) -> u32
    ensures { LineEntry (typed kind g h_a h_r n_t sigma limit) n out.old result out.new }
{
    let numbers = LeewayNumbers {
        g,
        h_a,
        h_r,
        n_t,
        sigma,
        limit,
        side: kind,
    };
    answer(write_line(numbers, n, out))
}
