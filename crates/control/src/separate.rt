ghost use Rattle.std.specs.Prelude.{◌≡◌, ◌&&◌, pos, ◌-ℤ◌, ◌*ℤ◌, IfSome};
ghost use Rattle.sampling.specs.Table.{where_true, numbered};
ghost use Rattle.plans.specs.Rounding.{Within};
ghost use Rattle.leeway.specs.Leeway.{leeway_line};
ghost use Rattle.control.specs.Separate.{paired, both_word, separately, spread, rest_of, upper_line};

use crate::limits::Limits;
use leeway::plan::LeewayPlan;
use sampling::both::Both;
use sampling::judging::word_on;
use sampling::line::{Line, LineNumber};
use sampling::piece::Piece;
use sampling::sequential::Sequential;
use sampling::word::Word;

// What is left of the spread, where the value is present.
fn rest_of(whole: i64, value: Option<i64>) -> Option<i64>
    requires { (Within 8000000000000 whole) × (IfSome value (Within 4000000000000000)) }
    ensures { result ≡ rest_of whole value }
{
    value.map(|v| whole - v)
}

// Line n of the table for separate control: the lower limit's, and the upper
// limit's turned to the same cumulative leeway; nothing where the plans are no
// such pair, or n is not from 1 to the curtailment.
pub fn separate_line(lower: &LeewayPlan, upper: &LeewayPlan, n: usize) -> Option<(Line, Line)>
    ensures { result ≡ where_true (paired lower.now upper.now && numbered lower.now.n_t n) (leeway_line lower.now n, upper_line lower.now upper.now n) }
{
    let limits = Limits {
        lower: *lower,
        upper: *upper,
    };
    if !limits.are_paired() {
        return None;
    }
    let at = LineNumber::up_to(lower.n_t, n)?;
    let whole = limits.spread(at);
    let (a, r) = upper.line(at);
    Some((lower.line(at), (rest_of(whole, a), rest_of(whole, r))))
}

// The word of separate control of two limits on these pieces, found by the both
// judge over the two plans; nothing where they are no such pair.
pub fn separate_control(lower: LeewayPlan, upper: LeewayPlan, pieces: &[Piece]) -> Option<Word>
    ensures both { result ≡ where_true (paired lower upper) (both_word lower upper pieces.now) }
    ensures separate { result ≡ where_true (paired lower upper) (separately lower upper pieces.now) }
{
    let limits = Limits { lower, upper };
    if !limits.are_paired() {
        return None;
    }
    let mut judge = Both {
        first: Sequential::new(lower),
        second: Sequential::new(upper),
    };
    Some(word_on(&mut judge, pieces))
}
