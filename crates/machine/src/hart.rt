// The hart's privilege, and the guard that raises it around work on the bank.
ghost use Rattle.bank.specs.declared.privilege.Privilege.TheVariants.{Machine};
ghost use Rattle.std.specs.Prelude.{◌≡◌};

use bank::Privilege;

#[derive(Drop)]
pub struct Hart {
    pub(crate) privilege: Privilege,
}

// While it lives the hart is at machine privilege; its end puts `back` there.
pub(crate) struct Raised<'a> {
    pub(crate) hart: &'a mut Hart,
    pub(crate) back: Privilege,
}

impl Drop for Raised<'_> {
    fn drop(self)
        ensures { self.exit.0.now.privilege ≡ self.entry.back }
    {
        let Raised { hart, back } = self;
        hart.privilege = back;
    }
}

impl<'a> Raised<'a> {
    // Raises the hart; what it had before comes back at the guard's end.
    pub(crate) fn new(hart: &'a mut Hart) -> Self
        ensures back { result.back ≡ hart.old.privilege }
        ensures raised { result.hart.now.privilege ≡ Machine }
        ensures same { result.hart.ghost_name ≡ hart.entry.ghost_name }
    {
        let back = hart.privilege;
        hart.privilege = Privilege::Machine;
        Raised { hart, back }
    }
}
