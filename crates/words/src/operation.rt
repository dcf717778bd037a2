// The words that name the operations of a tape.
ghost use Rattle.words.specs.Operation.{operation_named};
ghost use Rattle.std.specs.Prelude.{◌≡◌};

use tape::Operation;

// The operation that a word names.
pub(crate) fn named(word: &[u8]) -> Option<Operation>
    ensures { result ≡ operation_named word.now }
{
    match word {
        b"create" => Some(Operation::Create),
        b"enter" => Some(Operation::Enter),
        b"pause" => Some(Operation::Pause),
        b"finish" => Some(Operation::Finish),
        b"destroy" => Some(Operation::Destroy),
        b"load" => Some(Operation::Load),
        b"store" => Some(Operation::Store),
        b"fetch" => Some(Operation::Fetch),
        b"register" => Some(Operation::Register),
        _ => None,
    }
}
