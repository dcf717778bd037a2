// A line as an item.
ghost use Rattle.std.specs.Prelude.{◌≡◌};
ghost use Rattle.tape.specs.Item.{item};
ghost use Rattle.tape.specs.Operation.{operation_number};
ghost use Rattle.words.specs.Parse.{item_of, parse_line, sized};

use crate::fields::fields;
use crate::operation::named;
use tape::{Item, Operation, width};
use tokens::Words;

// The item that a line writes: the name of an operation, and its fields.
pub(crate) fn parse(line: &[u8]) -> Option<Item>
    ensures { result ≡ parse_line line.now }
{
    let mut words = Words::of(line);
    let operation = named(words.next()?)?;
    with_fields(operation, words)
}

#[tactic(auto, using(crate::proofs::Counted::fields_one, crate::proofs::Counted::fields_two, crate::proofs::Counted::fields_three, crate::proofs::Counted::two_from, crate::proofs::Counted::three_from))]
// The item of an operation whose fields the words write.
fn with_fields(operation: Operation, words: Words) -> Option<Item>
    ensures { result ≡ item_of operation words.entry }
{
    match operation {
        Operation::Create => {
            let [slot, base, exponent] = fields::<3>(words, &["slot", "base", "exponent"])?;
            Some(call(operation, slot, base, exponent))
        }
        Operation::Enter | Operation::Destroy => {
            let [slot] = fields::<1>(words, &["slot"])?;
            Some(call(operation, slot, 0, 0))
        }
        Operation::Pause => {
            let [] = fields::<0>(words, &[])?;
            Some(call(operation, 0, 0, 0))
        }
        Operation::Finish => {
            let [value] = fields::<1>(words, &["value"])?;
            Some(call(operation, 0, 0, value))
        }
        Operation::Load | Operation::Fetch => {
            let [size, address] = fields::<2>(words, &["size", "at"])?;
            access(operation, size, address, 0)
        }
        Operation::Store => {
            let [size, address, value] = fields::<3>(words, &["size", "at", "value"])?;
            access(operation, size, address, value)
        }
        Operation::Register => {
            let [number, value] = fields::<2>(words, &["number", "value"])?;
            Some(call(operation, 0, number, value))
        }
    }
}

// An item without a width.
fn call(operation: Operation, slot: u64, address: u64, value: u64) -> Item
    ensures { result ≡ item (operation_number operation) slot 0 address value }
{
    Item {
        operation: operation.number(),
        slot,
        width: 0,
        address,
        value,
    }
}

// The item of an access of a size, where there is such a size.
fn access(operation: Operation, size: u64, address: u64, value: u64) -> Option<Item>
    ensures { result ≡ sized (operation_number operation) size address value }
{
    Some(Item {
        width: width(size)?,
        ..call(operation, 0, address, value)
    })
}
