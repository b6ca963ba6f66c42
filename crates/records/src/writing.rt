ghost use Rattle.std.specs.Prelude.{◌≡◌, ◌≤◌};
ghost use Rattle.records.specs.Writing.{image, place_of_write, write_of};

use crate::slot::Slot;
use sampling::piece::Piece;

// The first two bytes of every record.
pub(crate) const MARK: [u8; 2] = [0xA5, 0x5A];

fn image(piece: Piece, number: u16) -> Slot
    ensures { result ≡ image piece number }
{
    let n = number.to_le_bytes();
    let v = piece.value().to_le_bytes();
    let f = u8::from(piece.finding());
    [
        MARK[0], MARK[1], n[0], n[1], v[0], v[1], v[2], v[3], f, 0, 0, 0, 0, 0, 0, 0,
    ]
}

// The mark is written last, and of the mark byte 1 last.
fn place_of_write(w: usize) -> usize
    requires { (1 ≤ w) × (w ≤ 16) }
    ensures { result ≡ place_of_write w }
{
    if w < 15 { w + 1 } else { w - 15 }
}

// Write w, from 1 to 16, of the piece with this number, as a place in the slot
// and the byte to store there.
pub fn write_of(piece: Piece, number: usize, w: usize) -> Option<(usize, u8)>
    ensures { result ≡ write_of piece number w }
{
    if !(1..=4096).contains(&number) || !(1..=16).contains(&w) {
        return None;
    }
    let place = place_of_write(w);
    let bytes = image(piece, number as u16);
    Some((place, bytes[place]))
}
