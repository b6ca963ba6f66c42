ghost use Rattle.std.specs.Prelude.{◌≡◌, ◌+◌, ◌*◌, ◌<◌, ◌≤◌, length};
ghost use Rattle.records.specs.Writing.{writes};
ghost use Rattle.memory.specs.Areas.{slot_count, slots, slot_at, with_slot};
ghost use Rattle.memory.specs.Page.{written_out};
ghost use Rattle.memory.specs.Stores.{under, after_stores};

use crate::number::RecordNumber;
use crate::power::Power;
use crate::writer::write_record;
use records::slot::Slot;
use sampling::piece::Piece;

// The place after the sixteen bytes of slot i, from 0.
fn slot_end(i: usize) -> usize
    requires { i < 4096 }
    ensures { result ≡ 16 * i + 16 }
{
    16 * (i + 1)
}

// The bytes of a memory part, lent to a book.
#[derive(Drop)]
pub(crate) struct Area<'a> {
    bytes: &'a mut [u8],
}

impl<'a> Area<'a> {
    pub(crate) fn new(bytes: &'a mut [u8]) -> Area<'a>
        ensures bytes { result.bytes.now ≡ bytes.old }
        ensures lender { result.bytes.ghost_name ≡ bytes.entry.ghost_name }
    {
        Area { bytes }
    }
}

impl Area<'_> {
    pub(crate) fn slots(&self) -> &[Slot]
        ensures { result.now ≡ slots self.now.bytes.now }
    {
        crate::scans::slots(self.bytes)
    }

    // Writes a record into slot i, from 0.
    #[tactic(auto, using(crate::proofs::Chunks::part_written))]
    pub(crate) fn write(&mut self, power: &mut Power, i: usize, piece: Piece, number: RecordNumber)
        requires { i < slot_count self.old.bytes.now }
        ensures bytes { self.new.bytes.now ≡ with_slot self.old.bytes.now i (under power.old (writes piece number.n) (slot_at self.old.bytes.now i)) }
        ensures power { power.new ≡ after_stores 16 power.old }
        ensures lender { self.new.bytes.ghost_name ≡ self.old.bytes.ghost_name }
    {
        write_record(power, &mut self.bytes[16 * i..slot_end(i)], piece, number);
    }

    // Writes records into the slots from i on, the oldest first, numbered from n on.
    pub(crate) fn write_all(&mut self, power: &mut Power, i: usize, n: usize, pieces: &[Piece])
        requires { (i + length pieces.now ≤ slot_count self.old.bytes.now) × ((1 ≤ n) × (n + length pieces.now ≤ 4097)) }
        ensures bytes { self.new.bytes.now ≡ written_out power.old i n pieces.now self.old.bytes.now }
        ensures lender { self.new.bytes.ghost_name ≡ self.old.bytes.ghost_name }
    {
        for (k, piece) in pieces.iter().enumerate() {
            self.write(power, i + k, *piece, RecordNumber { n: n + k });
        }
    }
}
