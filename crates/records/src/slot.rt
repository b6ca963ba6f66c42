ghost use Rattle.std.specs.Prelude.{◌≡◌};
ghost use Rattle.records.specs.Reading.{blank};

// Sixteen bytes of an area: blank, a record, or spoiled.
pub type Slot = [u8; 16];

// Whether every byte is as an erased part has it, 0xFF.
pub fn is_blank(slot: &Slot) -> bool
    ensures { result ≡ blank slot.now }
{
    slot.iter().all(|byte| *byte == 0xFF)
}
