// The slots, named by their entries.
ghost use Rattle.std.specs.Prelude.{◌≡◌, replicate, slice_set};
ghost use Rattle.std.specs.List.{list_all};
ghost use Rattle.monitor.specs.Content.{slot_of};
ghost use Rattle.monitor.specs.Roll.{apart as ranges_apart, apart_below};
ghost use Rattle.monitor.specs.Slots.{moved, ranged};
ghost use Rattle.monitor.specs.declared.slot.Slot.TheVariants.{Free};

use crate::entry::Entry;
use monitor::{Event, Slot};
use std::marker::Model;

// How many entries there are.
const COUNT: usize = 16;

// Clauses see a list of slots.
#[derive(Drop)]
pub struct Slots {
    list: [Slot; COUNT],
}

impl Model for Slots {
    ghost use Rattle.monitor.specs.declared.slot.Slot.{Slot};
    ghost use Rattle.std.specs.Prelude.{List};

    ghost Value = { List Slot };

    ghost view = { λ s. s.list };
}

impl Slots {
    pub(crate) fn new() -> Self
        ensures { result ≡ replicate 16 Free }
    {
        Slots {
            list: [Slot::Free; COUNT],
        }
    }

    pub(crate) fn get(&self, entry: Entry) -> Slot
        ensures { result ≡ slot_of self.now entry }
    {
        self.list[entry.number as usize]
    }

    // What the slot's stage and the event decide together; the other slots stay.
    pub(crate) fn step(&mut self, entry: Entry, event: Event)
        ensures { self.new ≡ slice_set self.old entry (moved (slot_of self.old entry) event) }
    {
        let slot = &mut self.list[entry.number as usize];
        *slot = match (*slot, event) {
            (Slot::Free, Event::Create(range)) => Slot::Fresh(range),
            (Slot::Fresh(range) | Slot::Stopped(range), Event::Enter) => Slot::Running(range),
            (Slot::Running(range), Event::Pause) => Slot::Stopped(range),
            (Slot::Running(range), Event::Finish) => Slot::Finished(range),
            (Slot::Fresh(_) | Slot::Stopped(_) | Slot::Finished(_), Event::Destroy) => Slot::Free,
            (same, _) => same,
        };
    }

    // Whether a range has no byte in common with any slot's. The last entry is no slot's.
    pub(crate) fn apart(&self, range: (u64, u64)) -> bool
        ensures { result ≡ apart_below (slot_of self.now) range.0 range.1 15 }
    {
        all_apart(&self.list[..COUNT - 1], range)
    }
}

fn all_apart(slots: &[Slot], range: (u64, u64)) -> bool
    ensures { result ≡ list_all (λ s. ranges_apart (ranged s) range.0 range.1) slots.now }
{
    slots.iter().all(|slot| apart(slot.range(), range))
}

// Whether two ranges have no byte in common.
fn apart(live: Option<(u64, u64)>, range: (u64, u64)) -> bool
    ensures { result ≡ ranges_apart live range.0 range.1 }
{
    match live {
        None => true,
        Some((first, past)) => range.1 <= first || past <= range.0,
    }
}
