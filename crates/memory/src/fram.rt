ghost use Rattle.std.specs.Prelude.{◌≡◌, ◌+◌, ◌≤◌, [], ◌∷◌, ◌++◌, length, if◌then◌else◌, Ok, Err, OnErr, nat_eq};
ghost use Rattle.book.specs.Meaning.{Put, pressed, IsCutOff};
ghost use Rattle.book.specs.declared.refusal.PutRefusal.TheVariants.{NoPlaces};
ghost use Rattle.memory.specs.Areas.{slots};
ghost use Rattle.memory.specs.Fram.{before_end, places_from_end, fram_put};
ghost use Rattle.memory.specs.FramBook.{bytes_of, lender_of, contents_of};
ghost use Rattle.memory.specs.declared.power.Power.TheVariants.{On, Failing};

use crate::area::Area;
use crate::cut::Cut;
use crate::number::RecordNumber;
use crate::power::Power;
use crate::scans::{before_end, count, piece_at, places_from_end};
use book::book::Book;
use book::refusal::PutRefusal;
use records::slot::Slot;
use sampling::piece::Piece;

// A book in FRAM, which is written byte by byte: each put is kept at once.
#[derive(Drop)]
pub struct FramBook<'a> {
    area: Area<'a>,
}

impl<'a> FramBook<'a> {
    // The book that an area holds, whatever is in it.
    pub fn new(area: &'a mut [u8]) -> FramBook<'a>
        ensures area { bytes_of result ≡ area.old }
        ensures lender { lender_of result ≡ area.entry.ghost_name }
    {
        FramBook {
            area: Area::new(area),
        }
    }
}

impl FramBook<'_> {
    fn kept_slots(&self) -> &[Slot]
        ensures { result.now ≡ before_end (slots (bytes_of self.now)) }
    {
        before_end(self.area.slots())
    }

    #[tactic(auto, using(crate::proofs::FramLaws::fram_numbers))]
    fn put_under(&mut self, power: &mut Power, piece: Piece) -> Result<(), PutRefusal>
        ensures answer { result ≡ (if nat_eq (places_from_end (slots (bytes_of self.old))) 0 then Err NoPlaces else Ok tt) }
        ensures area { bytes_of self.new ≡ fram_put power.old piece (bytes_of self.old) }
        ensures refused { OnErr result (self.new ≡ self.old) }
        ensures lender { lender_of self.new ≡ lender_of self.old }
    {
        if places_from_end(self.area.slots()) == 0 {
            return Err(PutRefusal::NoPlaces);
        }
        let end = self.kept_slots().len();
        let number = RecordNumber {
            n: self.count() + 1,
        };
        self.area.write(power, end, piece, number);
        Ok(())
    }
}

impl<'a> Book for FramBook<'a> {
    type Cut = Cut;

    ghost contents = { contents_of };

    ghost lender = { lender_of };

    #[tactic(auto, using(crate::proofs::FramLaws::fram_puts))]
    fn put(&mut self, piece: Piece) -> Result<(), PutRefusal>
        ensures put { Put result (contents_of self.old) piece (contents_of self.new) }
        ensures refused { OnErr result (self.new ≡ self.old) }
        ensures area { bytes_of self.new ≡ fram_put On piece (bytes_of self.old) }
        ensures lender { lender_of self.new ≡ lender_of self.old }
    {
        self.put_under(&mut Power::On, piece)
    }

    // Nothing waits.
    fn press(&mut self)
        ensures pressed { contents_of self.new ≡ pressed (contents_of self.old) }
        ensures area { bytes_of self.new ≡ bytes_of self.old }
        ensures lender { lender_of self.new ≡ lender_of self.old }
    {}

    #[tactic(auto, using(crate::proofs::FramLaws::fram_few))]
    fn count(&self) -> usize {
        count(self.kept_slots())
    }

    fn piece(&self, i: usize) -> Option<Piece> {
        piece_at(self.kept_slots(), i)
    }

    fn places(&self) -> usize {
        places_from_end(self.area.slots())
    }

    // The area is what is read anew.
    fn put_cut(&mut self, piece: Piece, cut: Cut)
        ensures cut { IsCutOff (contents_of self.old) (piece ∷ []) (contents_of self.new) }
        ensures area { bytes_of self.new ≡ fram_put (Failing cut) piece (bytes_of self.old) }
        ensures lender { lender_of self.new ≡ lender_of self.old }
    {
        let _ = self.put_under(&mut Power::Failing(cut), piece);
    }

    fn press_cut(&mut self, cut: Cut)
        ensures cut { IsCutOff (contents_of self.old) [] (contents_of self.new) }
        ensures area { bytes_of self.new ≡ bytes_of self.old }
        ensures lender { lender_of self.new ≡ lender_of self.old }
    {
        let _ = cut;
    }

    fn idle_cut(&mut self, cut: Cut)
        ensures cut { IsCutOff (contents_of self.old) [] (contents_of self.new) }
        ensures area { bytes_of self.new ≡ bytes_of self.old }
        ensures lender { lender_of self.new ≡ lender_of self.old }
    {
        let _ = cut;
    }
}
