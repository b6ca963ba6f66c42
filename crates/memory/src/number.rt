ghost use Rattle.std.specs.Prelude.{◌≤◌};

// The number of a record; an area has room for 4,096.
#[derive(Clone, Copy)]
pub(crate) struct RecordNumber {
    pub n: usize,
    ghost low: { 1 ≤ n },
    ghost high: { n ≤ 4096 },
}
