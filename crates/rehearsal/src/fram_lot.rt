// The lot over a FRAM book, with two entries cut off.
use crate::crash_driver::slot_line;
use crate::lots::{until_cut, until_report};
use leeway::table::Leeway;
use memory::cut::Cut;
use memory::fram::FramBook;
use std::io;

// The low byte of the value is being stored.
const IN_VALUE: Cut = Cut {
    stores: 2,
    torn: 0x20,
};

// The last byte is being stored, and is right.
const AT_END: Cut = Cut {
    stores: 15,
    torn: 0x5A,
};

const OUT_OF_RANGE: i32 = 100_000_001;

pub fn report(rt: &HostRuntime, judge: Leeway, area: &mut [u8]) -> io::Result<()> {
    rt.print("\nThe lot over a FRAM book in 16 blank slots.\n\n")?;
    let book = FramBook::new(area);
    until_cut(rt, judge, book, &[5930, 5909], 5921, IN_VALUE)?;
    slot_line(rt, area, 3)?;
    let book = FramBook::new(area);
    until_cut(rt, judge, book, &[5924, OUT_OF_RANGE], 5927, AT_END)?;
    slot_line(rt, area, 4)?;
    let book = FramBook::new(area);
    until_report(rt, judge, book, &[5939, 5914, 5916, 5932, 5930])
}
