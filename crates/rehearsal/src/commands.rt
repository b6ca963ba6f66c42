// Commands and events as they stand in the table of the script.
use lot::command::Command;
use lot::moment::Event;
use lot::stage::{PressStage, Stage};
use memory::cut::Cut;
use std::fmt;

// What the table says of a value.
#[derive(Clone, Copy)]
pub struct Told<T>(pub T);

impl fmt::Display for Told<Stage> {
    fn fmt<W: fmt::Write>(&self, f: &mut fmt::Formatter<W>) -> fmt::Result {
        f.write_str(match self.0 {
            Stage::BeforePut => "before put",
            Stage::InPut => "in put",
            Stage::BetweenPutAndPress => "between put and press",
            Stage::InPress => "in press",
            Stage::BeforeAnswer => "before answer",
        })
    }
}

impl fmt::Display for Told<PressStage> {
    fn fmt<W: fmt::Write>(&self, f: &mut fmt::Formatter<W>) -> fmt::Result {
        f.write_str(match self.0 {
            PressStage::InPress => "in press",
            PressStage::AfterPress => "after press",
        })
    }
}

impl fmt::Display for Told<Command<Cut>> {
    fn fmt<W: fmt::Write>(&self, f: &mut fmt::Formatter<W>) -> fmt::Result {
        match self.0 {
            Command::Wake => f.write_str("wake"),
            Command::Ask => f.write_str("ask"),
            Command::Enter(row) => write!(f, "enter {}", row.value),
            Command::CutBetween(_) => f.write_str("cut between calls"),
            Command::CutWaking(stage, _) => write!(f, "wake, cut {}", Told(stage)),
            Command::CutEntering(row, stage, cut) => write!(
                f,
                "enter {}, cut {}: {} stores, torn {:02X}",
                row.value,
                Told(stage),
                cut.stores,
                cut.torn,
            ),
        }
    }
}

impl fmt::Display for Told<Event> {
    fn fmt<W: fmt::Write>(&self, f: &mut fmt::Formatter<W>) -> fmt::Result {
        match self.0 {
            Event::NotWoken => f.write_str("not woken"),
            Event::Woken => f.write_str("woken"),
            Event::Asked(word) => write!(f, "{word}"),
            Event::Answered(_, word, number) => write!(f, "piece {number}, {word}"),
            Event::Refused(refusal) => write!(f, "refused with {}", refusal.number()),
            Event::BrokenOff(_) => f.write_str("broken off"),
            Event::Cut => f.write_str("cut"),
        }
    }
}
