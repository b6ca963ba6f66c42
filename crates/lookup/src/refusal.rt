ghost use Rattle.std.specs.Prelude.{◌≡◌, Some};
ghost use Rattle.lookup.specs.Looked.{lookup_number};
ghost use Rattle.lookup.specs.Texts.{lookup_text};

use std::error::Error;
use std::fmt;

// Why the lookup has no plan.
#[derive(Clone, Copy, PartialEq, Eq, Debug)]
pub enum LookupRefusal {
    // no row or no column has this value, or the cell is empty
    NotListed = 8,
}

impl LookupRefusal {
    pub fn number(self) -> u8
        ensures { result ≡ lookup_number self }
    {
        self as u8
    }
}

impl fmt::Display for LookupRefusal {
    ghost output = { λ e. Some (lookup_text e) };

    fn fmt<W: fmt::Write>(&self, f: &mut fmt::Formatter<W>) -> fmt::Result {
        f.write_str(match self {
            LookupRefusal::NotListed => "the master table has no plan for these two qualities",
        })
    }
}

impl Error for LookupRefusal {}
