ghost use Rattle.std.specs.Prelude.{◌≡◌, ◌<◌, length};
ghost use Rattle.memory.specs.Stores.{stored, spent};

use crate::cut::Cut;

// The supply under which bytes are stored.
#[derive(Clone, Copy)]
pub(crate) enum Power {
    On,
    Failing(Cut),
    Off,
}

// Every byte of an area is stored here, so that what is promised of a cut is
// promised of the same writing with the power on.
pub(crate) fn store(power: &mut Power, slot: &mut [u8], place: usize, byte: u8)
    requires { place < length slot.old }
    ensures slot { slot.new ≡ stored power.old slot.old place byte }
    ensures power { power.new ≡ spent power.old }
{
    match *power {
        Power::On => slot[place] = byte,
        Power::Failing(Cut { stores: 0, torn }) => {
            slot[place] = torn;
            *power = Power::Off;
        }
        Power::Failing(Cut { stores, torn }) => {
            slot[place] = byte;
            *power = Power::Failing(Cut {
                stores: stores - 1,
                torn,
            });
        }
        Power::Off => {}
    }
}
