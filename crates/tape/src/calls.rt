// Items and the machine's calls: an item that is accepted is exactly one call.
ghost use Rattle.std.specs.Prelude.{◌≡◌, ◌^◌};
ghost use Rattle.bank.specs.Verdicts.{kind_number};
ghost use Rattle.monitor.specs.declared.call.Call.TheVariants.{Access};
ghost use Rattle.tape.specs.Calls.{call_of, item_of, meaning, operation_of};
ghost use Rattle.tape.specs.Laws.{OneCall};
ghost use Rattle.tape.specs.Operation.{access_operation};

use crate::accepted::Accepted;
use crate::item::Item;
use crate::laws;
use crate::operation::Operation;
use crate::sizes::{size, width};
use bank::Kind;
use monitor::Call;
use refusals::Refusal;

impl TryFrom<Item> for Call {
    type Error = Refusal;

    ghost try_from_gives = { λ i r. r ≡ call_of i };

    // The call that an item is.
    fn try_from(item: Item) -> Result<Call, Refusal>
        ensures answer { result ≡ call_of item }
        ensures one { OneCall }
    {
        laws::one_call();
        Ok(Accepted::try_from(item)?.call())
    }
}

impl Accepted {
    // The call that it is.
    fn call(self) -> Call
        ensures { result ≡ meaning self.item }
    {
        let Item {
            slot,
            address,
            value,
            ..
        } = self.item;
        match self.operation {
            Operation::Create => Call::Create {
                slot,
                base: address,
                exponent: value,
            },
            Operation::Enter => Call::Enter { slot },
            Operation::Pause => Call::Pause,
            Operation::Finish => Call::Finish { word: value },
            Operation::Destroy => Call::Destroy { slot },
            Operation::Load => self.access(Kind::Load),
            Operation::Store => self.access(Kind::Store),
            Operation::Fetch => self.access(Kind::Fetch),
            Operation::Register => Call::Register {
                number: address,
                word: value,
            },
        }
    }

    // The access of a kind.
    fn access(self, kind: Kind) -> Call
        ensures { result ≡ Access (kind_number kind) self.item.address (2 ^ self.item.width) self.item.value }
    {
        Call::Access {
            kind: kind as u64,
            address: self.item.address,
            size: size(self.item.width),
            value: self.item.value,
        }
    }
}

impl TryFrom<Call> for Item {
    type Error = Refusal;

    ghost try_from_gives = { λ c r. r ≡ item_of c };

    // The item that is a call. An access of no kind has no operation, and one of no size no width.
    fn try_from(call: Call) -> Result<Item, Refusal>
        ensures answer { result ≡ item_of call }
        ensures one { OneCall }
    {
        laws::one_call();
        let (operation, slot, width, address, value) = match call {
            Call::Create {
                slot,
                base,
                exponent,
            } => (Operation::Create, slot, 0, base, exponent),
            Call::Enter { slot } => (Operation::Enter, slot, 0, 0, 0),
            Call::Pause => (Operation::Pause, 0, 0, 0, 0),
            Call::Finish { word } => (Operation::Finish, 0, 0, 0, word),
            Call::Destroy { slot } => (Operation::Destroy, slot, 0, 0, 0),
            Call::Access {
                kind,
                address,
                size,
                value,
            } => {
                let operation = operation(kind).ok_or(Refusal::Operation)?;
                let width = width(size).ok_or(Refusal::Fields)?;
                (operation, 0, width, address, value)
            }
            Call::Register { number, word } => (Operation::Register, 0, 0, number, word),
        };
        let item = Item {
            operation: operation.number(),
            slot,
            width,
            address,
            value,
        };
        Ok(Accepted::try_from(item)?.item)
    }
}

// The operation of a kind of access.
fn operation(kind: u64) -> Option<Operation>
    ensures { result ≡ access_operation kind }
{
    match Kind::try_from(kind) {
        Ok(Kind::Fetch) => Some(Operation::Fetch),
        Ok(Kind::Load) => Some(Operation::Load),
        Ok(Kind::Store) => Some(Operation::Store),
        Err(_) => None,
    }
}
