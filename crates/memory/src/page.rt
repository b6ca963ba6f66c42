ghost use Rattle.std.specs.Prelude.{◌≡◌, ◌+◌, ◌-◌, ◌<◌, ◌≤◌, [], ◌∷◌, ◌++◌, length, if◌then◌else◌, Ok, Err, OnErr, nat_eq};
ghost use Rattle.book.specs.Meaning.{Put, pressed, IsCutOff};
ghost use Rattle.book.specs.declared.refusal.PutRefusal.TheVariants.{NoPlaces};
ghost use Rattle.memory.specs.Areas.{slot_count, slots};
ghost use Rattle.memory.specs.Page.{blank_tail, page_press, page_put, waiting_after};
ghost use Rattle.memory.specs.declared.power.Power.TheVariants.{On, Failing};

use crate::area::Area;
use crate::cut::Cut;
use crate::power::Power;
use crate::scans::{blank_tail, count, piece_at};
use arrayvec::ArrayVec;
use book::book::Book;
use book::refusal::PutRefusal;
use sampling::piece::Piece;

// A book in memory that is written page by page: up to four pieces wait, and
// there is a blank slot for each.
#[derive(Drop)]
pub struct PageBook<'a> {
    area: Area<'a>,
    waiting: ArrayVec<Piece, 4>,
    ghost placed: { length waiting.items ≤ blank_tail (slots area.bytes.now) },
}

impl<'a> PageBook<'a> {
    ghost use Rattle.memory.specs.PageBook.{bytes_of, lender_of, waiting_in};

    // The book that an area holds, whatever is in it; nothing waits.
    pub fn new(area: &'a mut [u8]) -> PageBook<'a>
        ensures area { bytes_of result ≡ area.old }
        ensures waiting { waiting_in result ≡ [] }
        ensures lender { lender_of result ≡ area.entry.ghost_name }
    {
        PageBook {
            area: Area::new(area),
            waiting: ArrayVec::new(),
        }
    }
}

impl PageBook<'_> {
    ghost use Rattle.memory.specs.PageBook.{bytes_of, lender_of, waiting_in, contents_of};

    #[tactic(auto, using(crate::proofs::PageLaws::tail_back))]
    fn free(&self) -> usize
        ensures { result ≡ blank_tail (slots (bytes_of self.now)) - length (waiting_in self.now) }
    {
        blank_tail(self.area.slots()) - self.waiting.len()
    }

    // The slot after the last that is not blank, from 0.
    #[tactic(auto, using(crate::proofs::PageLaws::tail_back, crate::proofs::PageLaws::tail_few, crate::proofs::Chunks::length_slots))]
    fn first_blank(&self) -> usize
        ensures { result ≡ slot_count (bytes_of self.now) - blank_tail (slots (bytes_of self.now)) }
    {
        let slots = self.area.slots();
        slots.len() - blank_tail(slots)
    }

    fn next_number(&self) -> usize
        ensures { result ≡ length (contents_of self.now).kept + 1 }
    {
        self.count() + 1
    }

    // Nothing waits while the slots are written.
    #[tactic(auto, using(crate::proofs::PageLaws::press_numbers))]
    fn press_under(&mut self, power: &mut Power)
        ensures area { bytes_of self.new ≡ page_press power.old (waiting_in self.old) (bytes_of self.old) }
        ensures waiting { waiting_in self.new ≡ [] }
        ensures lender { lender_of self.new ≡ lender_of self.old }
    {
        let first = self.first_blank();
        let number = self.next_number();
        let waiting = self.waiting.take();
        self.area
            .write_all(power, first, number, waiting.as_slice());
    }

    // The four that wait are written out before a fifth.
    fn make_room(&mut self, power: &mut Power)
        ensures area { bytes_of self.new ≡ (if nat_eq (length (waiting_in self.old)) 4 then page_press power.old (waiting_in self.old) (bytes_of self.old) else bytes_of self.old) }
        ensures waiting { waiting_in self.new ≡ (if nat_eq (length (waiting_in self.old)) 4 then [] else waiting_in self.old) }
        ensures room { length (waiting_in self.new) < 4 }
        ensures lender { lender_of self.new ≡ lender_of self.old }
    {
        if self.waiting.is_full() {
            self.press_under(power);
        }
    }

    #[tactic(auto, using(crate::proofs::PageLaws::place_left))]
    fn put_under(&mut self, power: &mut Power, piece: Piece) -> Result<(), PutRefusal>
        ensures answer { result ≡ (if nat_eq (contents_of self.old).places 0 then Err NoPlaces else Ok tt) }
        ensures area { bytes_of self.new ≡ page_put power.old (waiting_in self.old) (bytes_of self.old) }
        ensures waiting { waiting_in self.new ≡ waiting_after piece (waiting_in self.old) (bytes_of self.old) }
        ensures refused { OnErr result (self.new ≡ self.old) }
        ensures lender { lender_of self.new ≡ lender_of self.old }
    {
        if self.free() == 0 {
            return Err(PutRefusal::NoPlaces);
        }
        self.make_room(power);
        self.waiting.push(piece);
        Ok(())
    }
}

impl<'a> Book for PageBook<'a> {
    type Cut = Cut;

    ghost use Rattle.memory.specs.PageBook.{bytes_of, lender_of, waiting_in, contents_of};

    ghost contents = { contents_of };

    ghost lender = { lender_of };

    #[tactic(auto, using(crate::proofs::PageMeaning::page_puts))]
    fn put(&mut self, piece: Piece) -> Result<(), PutRefusal>
        ensures put { Put result (contents_of self.old) piece (contents_of self.new) }
        ensures refused { OnErr result (self.new ≡ self.old) }
        ensures area { bytes_of self.new ≡ page_put On (waiting_in self.old) (bytes_of self.old) }
        ensures waiting { waiting_in self.new ≡ waiting_after piece (waiting_in self.old) (bytes_of self.old) }
        ensures lender { lender_of self.new ≡ lender_of self.old }
    {
        self.put_under(&mut Power::On, piece)
    }

    #[tactic(auto, using(crate::proofs::PageLaws::press_on))]
    fn press(&mut self)
        ensures pressed { contents_of self.new ≡ pressed (contents_of self.old) }
        ensures area { bytes_of self.new ≡ page_press On (waiting_in self.old) (bytes_of self.old) }
        ensures lender { lender_of self.new ≡ lender_of self.old }
    {
        self.press_under(&mut Power::On);
    }

    #[tactic(auto, using(crate::proofs::PageMeaning::page_within))]
    fn count(&self) -> usize {
        count(self.area.slots())
    }

    fn piece(&self, i: usize) -> Option<Piece> {
        piece_at(self.area.slots(), i)
    }

    fn places(&self) -> usize {
        self.free()
    }

    #[tactic(auto, using(crate::proofs::PageMeaning::page_cut_put))]
    fn put_cut(&mut self, piece: Piece, cut: Cut)
        ensures cut { IsCutOff (contents_of self.old) (waiting_in self.old ++ (piece ∷ [])) (contents_of self.new) }
        ensures area { bytes_of self.new ≡ page_put (Failing cut) (waiting_in self.old) (bytes_of self.old) }
        ensures lender { lender_of self.new ≡ lender_of self.old }
    {
        let _ = self.put_under(&mut Power::Failing(cut), piece);
        self.waiting.clear();
    }

    #[tactic(auto, using(crate::proofs::PageMeaning::page_cut_press))]
    fn press_cut(&mut self, cut: Cut)
        ensures cut { IsCutOff (contents_of self.old) (waiting_in self.old) (contents_of self.new) }
        ensures area { bytes_of self.new ≡ page_press (Failing cut) (waiting_in self.old) (bytes_of self.old) }
        ensures lender { lender_of self.new ≡ lender_of self.old }
    {
        self.press_under(&mut Power::Failing(cut));
    }

    // What waits is lost.
    #[tactic(auto, using(crate::proofs::PageMeaning::page_cut_idle))]
    fn idle_cut(&mut self, cut: Cut)
        ensures cut { IsCutOff (contents_of self.old) (waiting_in self.old) (contents_of self.new) }
        ensures area { bytes_of self.new ≡ bytes_of self.old }
        ensures lender { lender_of self.new ≡ lender_of self.old }
    {
        let _ = cut;
        self.waiting.clear();
    }
}
