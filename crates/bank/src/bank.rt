// What a bank is made of.
use crate::entry::{COUNT, Entry};
use crate::extent::Extent;
use std::marker::Model;

// The sixteen entries. No byte has bits 6 or 5, or W without R.
#[derive(Drop)]
pub struct Entries {
    pub(crate) list: [Entry; COUNT],
}

impl Model for Entries {
    ghost use Rattle.bank.specs.Clean.{Clean};
    ghost use Rattle.bank.specs.declared.entry.Entry.{Entry};
    ghost use Rattle.std.specs.Prelude.{List};

    ghost Value = { List Entry };

    ghost view = { λ e. e.list };

    ghost invariant = { λ e. Clean e.list };
}

// A bank of protection registers: clauses see its entries. It keeps the range of each entry too, so
// that a verdict need not decode it. Two arrays and not one of pairs: a range is read from two
// entries, by a method of the entries that runs while a range beside them is not yet in place.
#[derive(Drop)]
pub struct Bank {
    pub(crate) entries: Entries,
    pub(crate) ranges: [Extent; COUNT],
}

impl Model for Bank {
    ghost use Rattle.bank.specs.Ranges.{Keeps};
    ghost use Rattle.bank.specs.declared.entry.Entry.{Entry};
    ghost use Rattle.std.specs.Prelude.{List};

    ghost Value = { List Entry };

    ghost view = { λ b. b.entries };

    ghost invariant = { λ b. Keeps b.entries b.ranges };
}
