// The live slots of a workload: every slot there is, each over a page of its own.
ghost use Rattle.std.specs.Prelude.{◌≡◌, ◌+◌, ◌*◌};

pub(crate) const SLOTS: u32 = 13;

// Every page has 2^EXPONENT bytes.
pub(crate) const EXPONENT: u64 = 12;

// The entry of a slot. Slots are counted from 0 here, and their entries are those from 2 on.
pub(crate) fn entry(slot: u32) -> u64
    ensures { result ≡ 2 + slot }
{
    2 + u64::from(slot)
}

// Where its page begins: the pages lie one after another, from 0x2000 on.
pub(crate) fn base(slot: u32) -> u64
    ensures { result ≡ 4096 * (2 + slot) }
{
    0x1000 * entry(slot)
}
