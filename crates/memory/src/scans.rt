ghost use Rattle.std.specs.Prelude.{◌≡◌, ◌+◌, ◌-◌, ◌^◌, ◌<◌, ◌≤◌, length, drop, slice_get, if◌then◌else◌};
ghost use Rattle.std.specs.List.{list_all, prefix_len, suffix_len};
ghost use Rattle.records.specs.Reading.{blank};
ghost use Rattle.book.specs.Meaning.{piece_at};
ghost use Rattle.memory.specs.Areas.{slots, records, all_blank};
ghost use Rattle.memory.specs.Fram.{marked, before_end, places_from_end};
ghost use Rattle.memory.specs.Page.{blank_tail};

use crate::walk::Records;
use records::slot::{Slot, is_blank};
use sampling::piece::Piece;

// The slots of an area; bytes beyond them are never touched.
#[tactic(auto, using(crate::proofs::Chunks::cut_short))]
pub(crate) fn slots(area: &[u8]) -> &[Slot]
    ensures { result.now ≡ slots area.now }
{
    let (whole, _) = area.as_chunks::<16>();
    &whole[..whole.len().min(4096)]
}

#[tactic(auto, using(crate::proofs::RecordLists::records_few))]
pub(crate) fn count(slots: &[Slot]) -> usize
    ensures { result ≡ length (records 0 slots.now) }
{
    Records::of(slots).count()
}

// The piece of record n, from 0.
fn nth_piece(slots: &[Slot], n: usize) -> Option<Piece>
    ensures { result ≡ slice_get (records 0 slots.now) n }
{
    Records::of(slots).nth(n)
}

// The piece of record i, from 1.
#[tactic(auto, using(crate::proofs::RecordLists::piece_got))]
pub(crate) fn piece_at(slots: &[Slot], i: usize) -> Option<Piece>
    ensures { result ≡ piece_at (records 0 slots.now) i }
{
    nth_piece(slots, i.checked_sub(1)?)
}

fn all_blank(slots: &[Slot]) -> bool
    ensures { result ≡ list_all blank slots.now }
{
    slots.iter().all(is_blank)
}

// Whether byte 1, the last that a record gets, is the mark's.
fn is_marked(slot: &Slot) -> bool
    ensures { result ≡ marked slot.now }
{
    slot[1] == 0x5A
}

// How many slots come before the first whose byte 1 is not the mark's.
fn end(slots: &[Slot]) -> usize
    ensures { result ≡ prefix_len marked slots.now }
{
    slots.iter().take_while(|slot| is_marked(slot)).count()
}

#[tactic(auto, using(crate::proofs::FramLaws::end_counted, crate::proofs::FramLaws::front_is))]
pub(crate) fn before_end(slots: &[Slot]) -> &[Slot]
    ensures { result.now ≡ before_end slots.now }
{
    &slots[..end(slots)]
}

// The slots from the end on, if those after the end slot are blank.
#[tactic(auto, using(crate::proofs::FramLaws::end_counted, crate::proofs::RecordLists::all_counted, std::proofs::lemmas::List::take_rest))]
pub(crate) fn places_from_end(slots: &[Slot]) -> usize
    ensures { result ≡ places_from_end slots.now }
{
    let end = end(slots);
    if end >= slots.len() || !all_blank(&slots[end + 1..]) {
        return 0;
    }
    slots.len() - end
}

// How many slots come after the last that is not blank.
pub(crate) fn blank_tail(slots: &[Slot]) -> usize
    ensures { result ≡ suffix_len blank slots.now }
{
    slots.iter().rev().take_while(|slot| is_blank(slot)).count()
}
