ghost use Rattle.std.specs.Prelude.{◌≡◌, ℕ, List, true, []};
ghost use Rattle.book.specs.Meaning.{Contents};
ghost use Rattle.memory.specs.Areas.{slots, all_blank, blank_contents};
ghost use Rattle.memory.specs.Fram.{fram_contents};
ghost use Rattle.memory.specs.Page.{page_contents};
ghost use Rattle.memory.specs.FramBook as fram;
ghost use Rattle.memory.specs.PageBook as page;

use crate::cut::Cut;
use crate::fram::FramBook;
use crate::page::PageBook;
use book::book::Book;

// A book that lies in a lent area.
pub trait AreaBook<'a>: Book<Cut = Cut> {
    // the bytes of the area
    ghost bytes: { Self → List ℕ };
    // what an area holds, as it is read anew
    ghost holds: { List ℕ → Contents };

    // The book that an area holds, whatever is in it.
    fn over(area: &'a mut [u8]) -> Self
        ensures area { bytes result ≡ area.old }
        ensures holds { Self.Book.contents result ≡ holds area.old }
        ensures blank { all_blank (slots area.old) ≡ true → Self.Book.contents result ≡ blank_contents area.old }
        ensures lender { Self.Book.lender result ≡ area.entry.ghost_name };
}

impl<'a> AreaBook<'a> for FramBook<'a> {
    ghost bytes = { fram.bytes_of };

    ghost holds = { fram_contents };

    #[tactic(auto, using(crate::proofs::FramLaws::fram_blank))]
    fn over(area: &'a mut [u8]) -> FramBook<'a> {
        FramBook::new(area)
    }
}

impl<'a> AreaBook<'a> for PageBook<'a> {
    ghost bytes = { page.bytes_of };

    ghost holds = { λ area. page_contents area [] };

    #[tactic(auto, using(crate::proofs::PageMeaning::page_blank))]
    fn over(area: &'a mut [u8]) -> PageBook<'a> {
        PageBook::new(area)
    }
}
