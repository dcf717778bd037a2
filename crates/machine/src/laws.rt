// The theorem and the laws that hold over runs. A function here does nothing when it is run: a
// call that calls it promises its law beside its own answer.
ghost use Rattle.monitor.specs.Content.{banked};
ghost use Rattle.monitor.specs.Examples.{MachineExamples};
ghost use Rattle.monitor.specs.Laws.{DestroysClear, RollLaws};
ghost use Rattle.monitor.specs.Theorem.{ClosedOff};

// An enclave is closed off, over every memory and any calls.
pub(crate) fn closed_off()
    ensures { ClosedOff banked }
{}

// What the questions come to, over any calls.
pub(crate) fn roll_laws()
    ensures { RollLaws }
{}

// An accepted destroy leaves zeros in the slot's range.
pub(crate) fn destroys_clear()
    ensures { DestroysClear }
{}

// The worked examples hold.
pub(crate) fn machine_examples()
    ensures { MachineExamples }
{}
