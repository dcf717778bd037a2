// A slot and its stage, what brings it to another, and who runs.
ghost use Rattle.monitor.specs.Slots.{ranged};
ghost use Rattle.std.specs.Prelude.{◌≡◌};

// A slot by its stage; all but a free one have a range, a pair as everywhere: its first byte, and the one after its last.
#[derive(Clone, Copy, Debug, PartialEq, Eq)]
pub enum Slot {
    Free,
    Fresh((u64, u64)),
    Running((u64, u64)),
    Stopped((u64, u64)),
    Finished((u64, u64)),
}

impl Slot {
    pub fn range(self) -> Option<(u64, u64)>
        ensures { result ≡ ranged self }
    {
        match self {
            Slot::Free => None,
            Slot::Fresh(range)
            | Slot::Running(range)
            | Slot::Stopped(range)
            | Slot::Finished(range) => Some(range),
        }
    }
}

// What happens to a slot.
#[derive(Clone, Copy, Debug, PartialEq, Eq)]
pub enum Event {
    Create((u64, u64)),
    Enter,
    Pause,
    Finish,
    Destroy,
}

// Who runs: the operating system, or the enclave of a slot. Only clauses speak of it, for the theorem
// names parties; a machine holds an Option of an entry.
#[derive(Clone, Copy, Debug, PartialEq, Eq)]
pub enum Party {
    Os,
    Enclave(u64),
}
