ghost use Rattle.std.specs.Prelude.{◌≡◌, ◌+◌, ◌≤◌, ◌++◌, length};
ghost use Rattle.host.specs.Refusals.{answer_of};
ghost use Rattle.host.specs.Bytes.{stored, number_bytes};
ghost use Rattle.host.specs.Entries.{plan_bytes, fit_answer, fit_bytes};

use crate::refusal::Refusal;
use lookup::entry::Entry;
use sampling::line::Line;

// Writes these bytes from `at` on, and no others.
fn store(out: &mut [u8], at: usize, bytes: &[u8])
    requires { at + length bytes.now ≤ length out.old }
    ensures { out.new ≡ stored out.old at bytes.now }
{
    out[at..at + bytes.len()].copy_from_slice(bytes);
}

// One byte that says whether the number is present, and its eight bytes.
fn number_bytes(value: Option<i64>) -> [u8; 9]
    ensures { result ≡ number_bytes value }
{
    let present = u8::from(value.is_some());
    let b = value.unwrap_or(0).to_le_bytes();
    [present, b[0], b[1], b[2], b[3], b[4], b[5], b[6], b[7]]
}

// The sixteen bytes of a printed plan.
pub(crate) fn store_plan(out: &mut [u8], plan: Entry) -> Result<(), Refusal>
    ensures answer { answer_of result ≡ fit_answer 16 out.old }
    ensures bytes { out.new ≡ fit_bytes 16 (plan_bytes plan.g plan.h_a plan.h_r plan.n_t) out.old }
{
    if out.len() < 16 {
        return Err(Refusal::TooShort);
    }
    store(out, 0, &plan.g.to_le_bytes());
    store(out, 4, &plan.h_a.to_le_bytes());
    store(out, 8, &plan.h_r.to_le_bytes());
    store(out, 12, &plan.n_t.to_le_bytes());
    Ok(())
}

// The eighteen bytes of a table line.
pub(crate) fn store_line(out: &mut [u8], line: Line) -> Result<(), Refusal>
    ensures answer { answer_of result ≡ fit_answer 18 out.old }
    ensures bytes { out.new ≡ fit_bytes 18 (number_bytes line.0 ++ number_bytes line.1) out.old }
{
    if out.len() < 18 {
        return Err(Refusal::TooShort);
    }
    let (a, r) = line;
    store(out, 0, &number_bytes(a));
    store(out, 9, &number_bytes(r));
    Ok(())
}
