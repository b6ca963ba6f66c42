ghost use Rattle.std.specs.Prelude.{◌≡◌, IfOk};
ghost use Rattle.lookup.specs.Master.{cells};
ghost use Rattle.lookup.specs.Looked.{place_of, cell_at, looked_up, InRange};

use crate::entry::Entry;
use crate::master::{CELLS, Q_CR, Q_PR};
use crate::refusal::LookupRefusal;

// Where the value first stands in the list.
fn place_of(list: &[u32], value: u32) -> Option<usize>
    ensures { result ≡ place_of list.now value }
{
    list.iter().position(|x| *x == value)
}

// The printed plans.
fn cells() -> &'static [[Option<Entry>; 17]]
    ensures { result.now ≡ cells }
{
    &CELLS
}

// The cell of a row and a column, where both are listed. It knows no row of the
// table, so that rows can be added as data.
fn cell_at(
    cells: &[[Option<Entry>; 17]],
    row: Option<usize>,
    column: Option<usize>,
) -> Option<Entry>
    ensures { result ≡ cell_at cells.now row column }
{
    cells.get(row?)?.get(column?).copied().flatten()
}

// The plan of the master table for these two qualities, in thousandths of a percent.
pub fn look_up(q_pr: u32, q_cr: u32) -> Result<Entry, LookupRefusal>
    ensures answer { result ≡ looked_up q_pr q_cr }
    ensures in_range { IfOk result InRange }
{
    let row = place_of(&Q_PR, q_pr);
    let column = place_of(&Q_CR, q_cr);
    cell_at(cells(), row, column).ok_or(LookupRefusal::NotListed)
}
