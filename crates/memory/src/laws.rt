// Laws of the memories. A function here does nothing when it is run: a call that calls it
// promises its law beside its own answer.
#![tactic(auto, using(crate::proofs::Places::laws))]

ghost use Rattle.memory.specs.Laws.{BytesInPlace, HalvesInTurn, ReadsBack, WordsInPlace};

// What is written is read back, and nothing else changes.
pub(crate) fn reads_back()
    ensures { ReadsBack }
{}

// A buffer of bytes keeps each at its own place.
pub(crate) fn bytes_in_place()
    ensures { BytesInPlace }
{}

// A word's bytes lie least significant first.
pub(crate) fn words_in_place()
    ensures { WordsInPlace }
{}

// A pair's even places are the first's, its odd places the second's.
pub(crate) fn halves_in_turn()
    ensures { HalvesInTurn }
{}
