// A bank to try things on.
ghost use Rattle.bank.specs.Examples.{Examples, two_tor};
ghost use Rattle.std.specs.Prelude.{◌≡◌};

use crate::bank::Bank;
use crate::laws;
use crate::privilege::Privilege;

// Words 0x2000 and 0x3000 in entries 0 and 1, and the bytes of entries 0 to 3: two ranges, one
// above the other, if the lowest two say TOR. The worked examples stand on it.
pub fn two_ranges(bytes: u32) -> Bank
    ensures made { result ≡ two_tor bytes }
    ensures examples { Examples }
{
    laws::examples_hold();
    let mut bank = Bank::new();
    let machine = Privilege::Machine.into();
    let _ = bank.write(machine, 0x3B0, 0x2000);
    let _ = bank.write(machine, 0x3B1, 0x3000);
    let _ = bank.write(machine, 0x3A0, bytes);
    bank
}
