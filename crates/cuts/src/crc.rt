// CRC-32 of the areas that the books leave, with the polynomial 0xEDB88320.
#[derive(Clone, Copy)]
pub struct Crc {
    state: u32,
}

impl Crc {
    pub fn new() -> Crc {
        Crc { state: u32::MAX }
    }

    pub fn add(&mut self, bytes: &[u8]) {
        self.state = bytes
            .iter()
            .fold(self.state, |state, byte| after_byte(state, *byte));
    }

    pub fn value(self) -> u32 {
        !self.state
    }
}

fn after_byte(state: u32, byte: u8) -> u32 {
    (0..8).fold(state ^ u32::from(byte), |bits, _| after_bit(bits))
}

fn after_bit(bits: u32) -> u32 {
    if bits & 1 == 1 {
        (bits >> 1) ^ 0xEDB8_8320
    } else {
        bits >> 1
    }
}
