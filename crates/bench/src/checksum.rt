// A checksum of answers: it depends on each of them and on their order.
use monitor::{Answer, Denial, Layer};

const START: u64 = 0xCBF2_9CE4_8422_2325;

const FACTOR: u64 = 0x100_0000_01B3;

#[derive(Drop)]
pub(crate) struct Checksum {
    sum: u64,
}

impl Checksum {
    pub(crate) fn new() -> Self {
        Checksum { sum: START }
    }

    pub(crate) fn value(&self) -> u64 {
        self.sum
    }

    pub(crate) fn add(&mut self, word: u64) {
        self.sum = (self.sum ^ word).wrapping_mul(FACTOR);
    }

    // Adds a number for what kind of answer it is, and the number that it holds, as the C model does.
    pub(crate) fn answer(&mut self, answer: Answer) {
        let (kind, number) = match answer {
            Ok(value) => (0, value),
            Err(Denial::Refused(refusal)) => (1, u64::from(refusal.number())),
            Err(Denial::Fault(Layer::Protection, cause)) => (2, u64::from(cause)),
            Err(Denial::Fault(Layer::Memory, cause)) => (3, u64::from(cause)),
        };
        self.add(kind);
        self.add(number);
    }
}
