ghost use Rattle.std.specs.Prelude.{Some};
ghost use Rattle.leeway.specs.Tenths.{tenths_text};

use std::fmt;

// A number of tenths, printed with one decimal.
#[derive(Clone, Copy)]
pub struct Tenths(pub i64);

impl fmt::Display for Tenths {
    ghost output = { λ t. Some (tenths_text t.0) };

    fn fmt<W: fmt::Write>(&self, f: &mut fmt::Formatter<W>) -> fmt::Result {
        let size = self.0.unsigned_abs();
        let whole = size / 10;
        let digit = size % 10;
        if self.0 < 0 {
            write!(f, "-{whole}.{digit}")
        } else {
            write!(f, "{whole}.{digit}")
        }
    }
}
