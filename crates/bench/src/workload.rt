// The workloads by name, and what runs each.
use crate::{accesses, destroys, draws, tapes, verdicts};
use std::alloc::{AllocError, Global};

#[derive(Clone, Copy)]
pub(crate) enum Workload {
    Draws,
    Verdicts,
    Bytes,
    Words,
    Pair,
    Lent,
    HalfTape,
    Tape,
    DestroyHalf,
    Destroy,
}

// All of them, each with the rounds of a short run.
pub(crate) const ALL: [(Workload, u64); 10] = [
    (Workload::Draws, 1_000),
    (Workload::Verdicts, 1_000),
    (Workload::Bytes, 1_000),
    (Workload::Words, 1_000),
    (Workload::Pair, 1_000),
    (Workload::Lent, 1_000),
    (Workload::HalfTape, 1),
    (Workload::Tape, 1),
    (Workload::DestroyHalf, 1),
    (Workload::Destroy, 1),
];

impl Workload {
    pub(crate) fn named(name: &str) -> Option<Workload> {
        ALL.into_iter()
            .map(|(workload, _)| workload)
            .find(|workload| workload.name() == name)
    }

    pub(crate) fn name(self) -> &'static str {
        match self {
            Workload::Draws => "draws",
            Workload::Verdicts => "verdicts",
            Workload::Bytes => "bytes",
            Workload::Words => "words",
            Workload::Pair => "pair",
            Workload::Lent => "lent",
            Workload::HalfTape => "half-tape",
            Workload::Tape => "tape",
            Workload::DestroyHalf => "destroy-half",
            Workload::Destroy => "destroy",
        }
    }

    // Runs it for some rounds, and answers the checksum. A match and no table of functions: a table
    // would be made here and handed out.
    pub(crate) fn run(self, heap: Global, rounds: u64) -> Result<u64, AllocError> {
        match self {
            Workload::Draws => Ok(draws::run(rounds)),
            Workload::Verdicts => Ok(verdicts::run(rounds)),
            Workload::Bytes => accesses::bytes(heap, rounds),
            Workload::Words => accesses::words(heap, rounds),
            Workload::Pair => accesses::pair(heap, rounds),
            Workload::Lent => accesses::lent(heap, rounds),
            Workload::HalfTape => tapes::run(heap, 2_048, rounds),
            Workload::Tape => tapes::run(heap, 4_096, rounds),
            Workload::DestroyHalf => destroys::run(heap, 23, rounds),
            Workload::Destroy => destroys::run(heap, 24, rounds),
        }
    }
}
