// The nine operations of a tape, and their numbers.
ghost use Rattle.std.specs.Prelude.{◌≡◌};
ghost use Rattle.tape.specs.Operation.{operation_number};

use refusals::Refusal;

#[derive(Clone, Copy, Debug, PartialEq, Eq)]
pub enum Operation {
    Create = 1,
    Enter = 2,
    Pause = 3,
    Finish = 4,
    Destroy = 5,
    Load = 6,
    Store = 7,
    Fetch = 8,
    Register = 9,
}

impl Operation {
    // The number that stands for it in an item.
    pub fn number(self) -> u64
        ensures { result ≡ operation_number self }
    {
        self as u64
    }
}

impl TryFrom<u64> for Operation {
    type Error = Refusal;

    ghost use Rattle.tape.specs.Operation.{Decodes};

    ghost try_from_gives = { Decodes };

    fn try_from(number: u64) -> Result<Operation, Refusal> {
        match number {
            1 => Ok(Operation::Create),
            2 => Ok(Operation::Enter),
            3 => Ok(Operation::Pause),
            4 => Ok(Operation::Finish),
            5 => Ok(Operation::Destroy),
            6 => Ok(Operation::Load),
            7 => Ok(Operation::Store),
            8 => Ok(Operation::Fetch),
            9 => Ok(Operation::Register),
            _ => Err(Refusal::Operation),
        }
    }
}
