// A script of commands over a blank FRAM book, with a cut at every stage of an entry and of a
// waking, and a table of what came of each.
use crate::commands::Told;
use crate::lots::clean;
use drills::leeway_judge::drill_leeway;
use leeway::table::Leeway;
use lot::command::Command;
use lot::moment::{Event, Moment};
use lot::stage::{PressStage, Stage};
use memory::cut::Cut;
use memory::fram::FramBook;
use std::io;

const HEADING: &str = "
A script over a FRAM book in 7 blank slots: each command, what came of it, and then the pieces
kept and the places.

 n  command                                                   event              kept  places
";

// What the log has before the run.
const START: Moment = Moment {
    event: Event::NotWoken,
    kept: 0,
    places: 0,
};

const IDLE: Cut = Cut { stores: 0, torn: 0 };

fn enter(ring: i32) -> Command<Cut> {
    Command::Enter(clean(ring))
}

fn enter_cut(ring: i32, stage: Stage, stores: usize, torn: u8) -> Command<Cut> {
    Command::CutEntering(clean(ring), stage, Cut { stores, torn })
}

fn script() -> [Command<Cut>; 32] {
    [
        enter(5930),
        Command::Ask,
        Command::Wake,
        Command::Ask,
        enter(5930),
        enter_cut(5909, Stage::BeforePut, 0, 0xFF),
        enter(5909),
        Command::Wake,
        enter_cut(5909, Stage::InPut, 5, 0x00),
        enter_cut(5909, Stage::InPut, 15, 0x5A),
        Command::Wake,
        enter(5909),
        enter_cut(5921, Stage::InPut, 15, 0x5A),
        Command::CutWaking(PressStage::InPress, IDLE),
        Command::Wake,
        enter_cut(5924, Stage::BetweenPutAndPress, 0, 0x00),
        Command::CutWaking(PressStage::AfterPress, IDLE),
        Command::Wake,
        enter_cut(5927, Stage::InPress, 3, 0x00),
        Command::Wake,
        enter(100_000_001),
        Command::CutBetween(IDLE),
        Command::Ask,
        Command::Wake,
        enter_cut(5939, Stage::BeforeAnswer, 0, 0x00),
        Command::Wake,
        Command::Ask,
        enter(5932),
        enter(5914),
        enter_cut(5914, Stage::InPut, 16, 0x00),
        Command::Wake,
        Command::Ask,
    ]
}

fn line(rt: &HostRuntime, n: usize, command: Command<Cut>, moment: Moment) -> io::Result<()> {
    let command = Told(command).to_string(rt.alloc())?;
    let event = Told(moment.event).to_string(rt.alloc())?;
    let kept = moment.kept;
    let places = moment.places;
    println!(rt; "{n:>2}  {command:<56}  {event:<17}  {kept:>4}  {places:>6}")
}

fn lines(rt: &HostRuntime, commands: &[Command<Cut>], log: &[Moment]) -> io::Result<()> {
    for (n, (command, moment)) in (1..).zip(commands.iter().zip(log)) {
        line(rt, n, *command, *moment)?;
    }
    Ok(())
}

pub fn report(rt: &HostRuntime, judge: Leeway, area: &mut [u8]) -> io::Result<()> {
    rt.print(HEADING)?;
    let commands = script();
    let mut log = [START; 32];
    let _ = drill_leeway::<FramBook>(judge, area, &commands, &mut log);
    lines(rt, &commands, &log)
}
