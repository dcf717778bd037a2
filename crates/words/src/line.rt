// An item as a line: the name of its operation, and its fields.
ghost use Rattle.std.specs.Prelude.{Some};
ghost use Rattle.words.specs.Line.{item_text};

use std::fmt;
use tape::{Item, Operation, size};

// A struct, since an item is not this crate's to print.
#[derive(Clone, Copy)]
pub(crate) struct Line(pub(crate) Item);

impl fmt::Display for Line {
    ghost output = { λ l. Some (item_text l.0) };

    #[tactic(auto, using(crate::proofs::Spelling::hex_digits))]
    fn fmt<W: fmt::Write>(&self, f: &mut fmt::Formatter<W>) -> fmt::Result {
        let slot = self.0.slot;
        let size = size(self.0.width);
        let address = self.0.address;
        let value = self.0.value;
        match Operation::try_from(self.0.operation) {
            Ok(Operation::Create) => write!(
                f,
                "create slot {slot} base 0x{address:x} exponent {value}"
            ),
            Ok(Operation::Enter) => write!(f, "enter slot {slot}"),
            Ok(Operation::Pause) => write!(f, "pause"),
            Ok(Operation::Finish) => write!(f, "finish value 0x{value:x}"),
            Ok(Operation::Destroy) => write!(f, "destroy slot {slot}"),
            Ok(Operation::Load) => write!(f, "load size {size} at 0x{address:x}"),
            Ok(Operation::Store) => write!(
                f,
                "store size {size} at 0x{address:x} value 0x{value:x}"
            ),
            Ok(Operation::Fetch) => write!(f, "fetch size {size} at 0x{address:x}"),
            // the last stands for every other number too
            Ok(Operation::Register) | Err(_) => write!(
                f,
                "register number 0x{address:x} value 0x{value:x}"
            ),
        }
    }
}
