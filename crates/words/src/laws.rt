// What holds of every item and every tape. A function here does nothing when it is run: a call that calls it
// promises its law beside its own answer.
ghost use Rattle.words.specs.Laws.{ItemsReadBack, LinesRefused, TapesReadBack};

// The line of every item that a tape holds is read as that item.
pub(crate) fn items_read_back()
    ensures { ItemsReadBack }
{}

// Texts that are refused, and where.
pub(crate) fn lines_refused()
    ensures { LinesRefused }
{}

// The text of every tape gives that tape back.
pub(crate) fn tapes_read_back()
    ensures { TapesReadBack }
{}
