// An item that is accepted: one of the nine operations, and no field larger than it may be.
ghost use Rattle.std.specs.Prelude.{◌≡◌, ◌≤◌};
ghost use Rattle.tape.specs.Item.{Fitting, largest_of};
ghost use Rattle.tape.specs.Operation.{operation_number};

use crate::item::Item;
use crate::operation::Operation;
use refusals::Refusal;

// The largest number of each field, and of a register's word.
const SLOT: u64 = 0xF;

const WIDTH: u64 = 0x3;

const ADDRESS: u64 = 0x3_FFFF_FFFF;

const VALUE: u64 = 0xFFFF_FFFF_FFFF_FFFF;

const WORD: u64 = 0xFFFF_FFFF;

#[derive(Clone, Copy)]
pub(crate) struct Accepted {
    pub(crate) operation: Operation,
    pub(crate) item: Item,
    pub ghost named: { operation_number operation ≡ item.operation },
    pub ghost fits: { Fitting item },
}

impl TryFrom<Item> for Accepted {
    type Error = Refusal;

    ghost use Rattle.refusals.specs.Questions.{ruling};
    ghost use Rattle.std.specs.Prelude.{◌≡◌, Ok, Err, MatchResult};
    ghost use Rattle.tape.specs.Item.{item_questions};

    ghost try_from_gives = { λ i r. MatchResult r (λ a. (a.item ≡ i) × (ruling (item_questions i) ≡ Ok tt)) (λ e. ruling (item_questions i) ≡ Err e) };

    fn try_from(item: Item) -> Result<Accepted, Refusal> {
        let operation = Operation::try_from(item.operation)?;
        let most = largest(operation);
        if item.slot <= most.slot
            && item.width <= most.width
            && item.address <= most.address
            && item.value <= most.value
        {
            Ok(Accepted { operation, item })
        } else {
            Err(Refusal::Fields)
        }
    }
}

// The item of an operation with every field as large as it may be: zero where it is not used.
#[tactic(auto, unfolding(crate::specs::Item::largest_of))]
fn largest(operation: Operation) -> Item
    ensures value { result ≡ largest_of (operation_number operation) }
    ensures bound { (result.operation ≤ 9) × (result.slot ≤ 15) × (result.width ≤ 3) × (result.address ≤ 0x3_FFFF_FFFF) }
{
    let number = operation.number();
    let (slot, width, address, value) = match operation {
        Operation::Create => (SLOT, 0, ADDRESS, VALUE),
        Operation::Enter => (SLOT, 0, 0, 0),
        Operation::Pause => (0, 0, 0, 0),
        Operation::Finish => (0, 0, 0, VALUE),
        Operation::Destroy => (SLOT, 0, 0, 0),
        Operation::Load => (0, WIDTH, ADDRESS, 0),
        Operation::Store => (0, WIDTH, ADDRESS, VALUE),
        Operation::Fetch => (0, WIDTH, ADDRESS, 0),
        Operation::Register => (0, 0, ADDRESS, WORD),
    };
    Item {
        operation: number,
        slot,
        width,
        address,
        value,
    }
}
