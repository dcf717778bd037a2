// The pair memory: two memories in turn, the even places the first one's, the odd the second one's.
ghost use Rattle.memory.specs.Laws.{HalvesInTurn};
ghost use Rattle.memory.specs.Meaning.{pair_beyond, pair_bytes};
ghost use Rattle.std.specs.Prelude.{◌≡◌};

use crate::laws;
use crate::traits::{LIMIT, Memory};

// No Model, as over a buffer: a half may be lent.
#[derive(Drop)]
pub struct PairMemory<F, S> {
    first: F,
    second: S,
}

impl<F: Memory, S: Memory> PairMemory<F, S> {
    pub fn new(first: F, second: S) -> Self
        ensures first { result.first ≡ first }
        ensures second { result.second ≡ second }
        ensures places { HalvesInTurn }
    {
        laws::halves_in_turn();
        PairMemory { first, second }
    }

    // Gives both memories back.
    pub fn into_inner(self) -> (F, S)
        ensures { result ≡ (self.first, self.second) }
    {
        let PairMemory { first, second } = self;
        (first, second)
    }
}

#[tactic(auto, using(crate::proofs::InTurn::joins))]
impl<F: Memory, S: Memory> Memory for PairMemory<F, S> {
    ghost bytes = { pair_bytes F.Memory.bytes S.Memory.bytes };

    ghost beyond = { pair_beyond F.Memory.bytes S.Memory.bytes F.Memory.beyond S.Memory.beyond };

    fn len(&self) -> u64 {
        (2 * self.first.len().min(self.second.len())).min(LIMIT)
    }

    fn read(&self, place: u64) -> Option<u8> {
        if place >= self.len() {
            return None;
        }
        if place % 2 == 0 {
            self.first.read(place / 2)
        } else {
            self.second.read(place / 2)
        }
    }

    fn write(&mut self, place: u64, byte: u8) -> Option<()> {
        if place >= self.len() {
            return None;
        }
        if place % 2 == 0 {
            self.first.write(place / 2, byte)
        } else {
            self.second.write(place / 2, byte)
        }
    }
}
