ghost use Rattle.std.specs.Prelude.{◌≡◌, ◌+◌, ◌^◌, ◌<◌, length};

use records::reading::read;
use records::slot::Slot;
use sampling::piece::Piece;

// The pieces of the records among slots, in order.
#[derive(Drop)]
pub(crate) struct Records<'a> {
    slots: &'a [Slot],
    // how many records came before these slots
    before: usize,
    ghost few: { before + length slots.now < 2 ^ 64 },
}

impl<'a> Records<'a> {
    ghost use Rattle.memory.specs.Areas.{records};
    ghost use Rattle.memory.specs.Walk.{pieces_left};

    pub(crate) fn of(slots: &'a [Slot]) -> Records<'a>
        ensures { pieces_left result ≡ records 0 slots.now }
    {
        Records { slots, before: 0 }
    }
}

impl<'a> Iterator for Records<'a> {
    ghost use Rattle.std.specs.Iterator.{YieldsFirst, item_count};
    ghost use Rattle.memory.specs.Walk.{pieces_left};

    type Item = Piece;

    ghost next_gives = { YieldsFirst pieces_left };

    ghost remaining = { item_count pieces_left };

    fn next(&mut self) -> Option<Piece> {
        while let Some((slot, others)) = self.slots.split_first() {
            self.slots = others;
            if let Some(piece) = read(slot, self.before) {
                self.before += 1;
                return Some(piece);
            }
        }
        None
    }
}
