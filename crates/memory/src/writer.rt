ghost use Rattle.std.specs.Prelude.{◌≡◌, ◌≤◌, length, slice_index};
ghost use Rattle.records.specs.Writing.{image, place_of_write, writes};
ghost use Rattle.memory.specs.Stores.{stored, spent, under, after_stores};

use crate::number::RecordNumber;
use crate::power::{Power, store};
use records::writing::write_of;
use sampling::piece::Piece;

// Write w of the sixteen.
fn store_write(power: &mut Power, slot: &mut [u8], piece: Piece, number: RecordNumber, w: usize)
    requires { (length slot.old ≡ 16) × ((1 ≤ w) × (w ≤ 16)) }
    ensures slot { slot.new ≡ stored power.old slot.old (place_of_write w) (slice_index (image piece number.n) (place_of_write w)) }
    ensures power { power.new ≡ spent power.old }
{
    if let Some((place, byte)) = write_of(piece, number.n, w) {
        store(power, slot, place, byte);
    }
}

// Writes the record of a piece into the sixteen bytes of its slot.
pub(crate) fn write_record(power: &mut Power, slot: &mut [u8], piece: Piece, number: RecordNumber)
    requires { length slot.old ≡ 16 }
    ensures slot { slot.new ≡ under power.old (writes piece number.n) slot.old }
    ensures power { power.new ≡ after_stores 16 power.old }
{
    for w in 1..=16 {
        store_write(power, slot, piece, number, w);
    }
}
