// Areas spelled as text, a letter for each slot.
use records::slot::Slot;
use std::alloc::{AllocError, Global};

const BLANK: Slot = [0xFF; 16];

// The bytes of a record, in range or not; so the finding is a byte here.
fn record(number: u8, value: i32, finding: u8) -> Slot {
    let v = value.to_le_bytes();
    [
        0xA5, 0x5A, number, 0, v[0], v[1], v[2], v[3], finding, 0, 0, 0, 0, 0, 0, 0,
    ]
}

pub fn with_byte(slot: Slot, place: usize, byte: u8) -> Slot {
    let mut other = slot;
    if let Some(old) = other.get_mut(place) {
        *old = byte;
    }
    other
}

pub fn slot_of(letter: u8) -> Slot {
    match letter {
        b'1' => record(1, 100, 0),
        b'2' => record(2, -5, 1),
        b'3' => record(3, 258, 0),
        b'z' => [0; 16],
        b'r' => [0xA5; 16],
        b'u' => with_byte(record(3, 7, 0), 1, 0xFF),
        b'm' => with_byte(BLANK, 1, 0x5A),
        b'o' => record(2, 100_000_001, 0),
        b'f' => record(2, -5, 2),
        b't' => with_byte(record(2, -5, 1), 15, 1),
        _ => BLANK,
    }
}

pub fn area_of(heap: Global, letters: &str) -> Result<Vec<u8>, AllocError> {
    let mut area = Vec::new(heap);
    for letter in letters.bytes() {
        area.extend_from_slice(&slot_of(letter))?;
    }
    Ok(area)
}

// How many bytes of two areas differ, from a byte on.
pub fn altered_from(start: usize, before: &[u8], after: &[u8]) -> usize {
    before
        .iter()
        .zip(after)
        .skip(start)
        .filter(|(b, a)| b != a)
        .count()
}

pub fn altered(before: &[u8], after: &[u8]) -> usize {
    altered_from(0, before, after)
}
