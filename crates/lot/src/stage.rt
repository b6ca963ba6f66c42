// Where in an entry the mains drops.
#[derive(Clone, Copy, PartialEq, Eq, Debug)]
pub enum Stage {
    BeforePut,
    InPut,
    BetweenPutAndPress,
    InPress,
    BeforeAnswer,
}

// Where in a press, or after it, the mains drops.
#[derive(Clone, Copy, PartialEq, Eq, Debug)]
pub enum PressStage {
    InPress,
    AfterPress,
}
