// Laws over whole runs. A function here does nothing when it is run: a call that calls it
// promises its law beside its own answer.
ghost use Rattle.bank.specs.Examples.{Examples};
ghost use Rattle.bank.specs.Laws.{AlwaysClean, LocksStand, LowestDecides, OldLocksDecide, OnlyResetsRelease, RangesComeBack, WordsLastWritten};

// Through any writes a locked entry keeps byte, word and range.
#[tactic(auto, using(crate::proofs::Kept::locks_stand))]
pub(crate) fn locks_stand()
    ensures { LocksStand }
{}

// Nothing but a reset releases a lock.
#[tactic(auto, using(crate::proofs::Kept::only_resets_release))]
pub(crate) fn only_resets_release()
    ensures { OnlyResetsRelease }
{}

// No stored byte ever has bits 6 or 5, or W without R.
#[tactic(auto, using(crate::proofs::FromNew::always_clean))]
pub(crate) fn always_clean()
    ensures { AlwaysClean }
{}

// Each word is what was last written to it while it was not held.
#[tactic(auto, using(crate::proofs::FromNew::words_last_written))]
pub(crate) fn words_last_written()
    ensures { WordsLastWritten }
{}

// The locks before a write of four bytes decide each of them.
#[tactic(auto, using(crate::proofs::Four::old_locks_decide))]
pub(crate) fn old_locks_decide()
    ensures { OldLocksDecide }
{}

// The lowest entry that holds any byte of an access decides, alone.
#[tactic(auto, using(crate::proofs::Decides::lowest_decides))]
pub(crate) fn lowest_decides()
    ensures { LowestDecides }
{}

// A range put into a word comes back as that range.
#[tactic(auto, using(crate::proofs::Words::ranges_come_back))]
pub(crate) fn ranges_come_back()
    ensures { RangesComeBack }
{}

// The worked examples hold.
#[tactic(auto, unfolding(crate::specs::Ranges::trailing_ones, crate::specs::Verdicts::lowest, crate::specs::Content::put_four))]
pub(crate) fn examples_hold()
    ensures { Examples }
{}
