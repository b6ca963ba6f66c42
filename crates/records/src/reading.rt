ghost use Rattle.std.specs.Prelude.{◌≡◌, ◌+◌, ◌<◌, Some, ◌==◌, ◌&&◌, take, drop, slice_index};
ghost use Rattle.sampling.specs.declared.piece.Piece.{Piece};
ghost use Rattle.records.specs.Reading.{all_are, number_in, value_in, piece_of, formed, record_in};
ghost use Rattle.records.specs.Writing.{image};

use crate::slot::{Slot, is_blank};
use crate::writing::MARK;
use sampling::piece::Piece;
use sampling::rows::Row;

fn number_in(slot: &Slot) -> usize
    ensures { result ≡ number_in slot.now }
{
    u16::from_le_bytes([slot[2], slot[3]]) as usize
}

fn value_in(slot: &Slot) -> i32
    ensures { result ≡ value_in slot.now }
{
    i32::from_le_bytes([slot[4], slot[5], slot[6], slot[7]])
}

// The piece of a value and a finding's byte, where both are in range.
pub fn piece_of(value: i32, finding: u8) -> Option<Piece>
    ensures { result ≡ piece_of value finding }
{
    let finding = i32::from(finding);
    Piece::try_from(Row { value, finding }).ok()
}

// Whether a number is one more than the records before it.
fn is_next(number: usize, before: usize) -> bool
    ensures { result ≡ (number == before + 1) }
{
    number.checked_sub(1) == Some(before)
}

fn has_mark(slot: &Slot) -> bool
    ensures { result ≡ (slice_index slot.now 0 == 165 && slice_index slot.now 1 == 90) }
{
    slot.starts_with(&MARK)
}

fn ends_in_zeros(slot: &Slot) -> bool
    ensures { result ≡ all_are 0 (take 7 (drop 9 slot.now)) }
{
    slot[9..16].iter().all(|byte| *byte == 0)
}

fn is_formed(slot: &Slot, before: usize) -> bool
    ensures { result ≡ formed slot.now before }
{
    has_mark(slot) && is_next(number_in(slot), before) && ends_in_zeros(slot)
}

fn record_in(slot: &Slot, before: usize) -> Option<Piece>
    ensures { result ≡ record_in slot.now before }
{
    if is_blank(slot) || !is_formed(slot, before) {
        return None;
    }
    piece_of(value_in(slot), slot[8])
}

// The piece of a slot that is a record after so many records, nothing where it
// is blank or spoiled.
pub fn read(slot: &Slot, before: usize) -> Option<Piece>
    ensures value { result ≡ record_in slot.now before }
    ensures written { (p : Piece) → before < 4096 → slot.now ≡ image p (before + 1) → result ≡ Some p }
    ensures only { (p : Piece) → result ≡ Some p → slot.now ≡ image p (before + 1) }
{
    record_in(slot, before)
}
