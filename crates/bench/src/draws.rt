// Accesses, drawn one after another by a small generator: the same ones in every run.
use crate::checksum::Checksum;
use bank::Kind;

pub(crate) const LOAD: u64 = Kind::Load as u64;

pub(crate) const STORE: u64 = Kind::Store as u64;

const SEED: u64 = 0x9E37_79B9_7F4A_7C15;

// A load or store of 2^width bytes, 0 to 3, somewhere below 0x20000.
// Kinds are numbers, as the machine takes them and the C model draws them.
#[derive(Clone, Copy)]
pub(crate) struct Draw {
    pub kind: u64,
    pub address: u64,
    pub width: u64,
    pub value: u64,
}

impl Draw {
    pub(crate) fn size(self) -> u64 {
        1 << (self.width & 3)
    }
}

#[derive(Drop)]
pub(crate) struct Draws {
    state: u64,
}

impl Draws {
    pub(crate) fn new() -> Self {
        Draws { state: SEED }
    }

    // One step of a xorshift generator, cut into the fields of an access.
    pub(crate) fn draw(&mut self) -> Draw {
        let mut bits = self.state;
        bits ^= bits << 13;
        bits ^= bits >> 7;
        bits ^= bits << 17;
        self.state = bits;
        Draw {
            kind: if bits & 0x80000 == 0 { LOAD } else { STORE },
            address: bits & 0x1FFFF,
            width: (bits >> 17) & 3,
            value: bits.rotate_left(32),
        }
    }
}

// Draws alone: the part of the other workloads that is not the library's.
pub(crate) fn run(rounds: u64) -> u64 {
    let mut sum = Checksum::new();
    let mut draws = Draws::new();
    for _ in 0..rounds {
        let access = draws.draw();
        sum.add(access.kind ^ access.size());
        sum.add(access.address ^ access.value);
    }
    sum.value()
}
