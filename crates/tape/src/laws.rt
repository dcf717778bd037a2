// Laws over whole tapes. A function here does nothing when it is run: a call that calls it
// promises its law beside its own answer.
ghost use Rattle.tape.specs.Laws.{OneCall, OneTape, ReadsBack, ReportLaws, SameText};

// An item that is accepted and its call determine one another.
pub(crate) fn one_call()
    ensures { OneCall }
{}

// What is written is read back.
pub(crate) fn reads_back()
    ensures { ReadsBack }
{}

// A tape that is read is the one that its items are written as.
pub(crate) fn one_tape()
    ensures { OneTape }
{}

// What a report is of any tape.
pub(crate) fn report_laws()
    ensures { ReportLaws }
{}

// The bytes of a memory decide the text, whatever its kind.
pub(crate) fn same_text()
    ensures { SameText }
{}
