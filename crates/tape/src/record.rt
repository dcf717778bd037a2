// A record: the 16 bytes of an item, its fields packed one after another, most significant bit
// first: operation 4 bits, slot 4, width 2, spare 20, address 34, value 64.
ghost use Rattle.std.specs.Prelude.{◌≡◌, ◌^◌, ◌<◌, ◌≤◌, length};
ghost use Rattle.std.specs.Int.Digits.{number_from_digits};
ghost use Rattle.tape.specs.Record.{bytes_of, decoded, encoded, packed, split};

use crate::accepted::Accepted;
use crate::item::Item;
use refusals::Refusal;

// The bytes of a record.
pub const RECORD: usize = 16;

// What a record holds.
#[derive(Clone, Copy, Debug, PartialEq, Eq)]
pub(crate) struct Unpacked {
    spare: u64,
    item: Item,
}

// The number that at most eight bytes write, most significant first.
fn big_endian(bytes: &[u8]) -> u64
    requires { length bytes.now ≤ 8 }
    ensures value { result ≡ number_from_digits 256 bytes.now }
    ensures bound { result < 256 ^ length bytes.now }
{
    let mut n = 0u64;
    for b in bytes {
        n = (n << 8) | u64::from(*b);
    }
    n
}

// Its first byte is taken from the rest as of any slice: a rule of this library.
fn unpack(bytes: &[u8]) -> Unpacked
    requires { length bytes.now ≡ 16 }
    ensures { result ≡ split (number_from_digits 256 bytes.now) }
{
    let [head, rest @ ..] = bytes else {
        unreachable!()
    };
    let high = big_endian(&rest[0..7]);
    let value = big_endian(&rest[7..]);
    let first = u64::from(*head);
    Unpacked {
        spare: (high >> 34) & 0xF_FFFF,
        item: Item {
            operation: first >> 4,
            slot: first & 0xF,
            width: high >> 54,
            address: high & 0x3_FFFF_FFFF,
            value,
        },
    }
}

impl Accepted {
    // The number of 128 bits that the fields make.
    fn combine(self) -> u128
        ensures { result ≡ packed self.item }
    {
        let item = self.item;
        let head = (u128::from(item.operation) << 4) | u128::from(item.slot);
        let high = (((head << 2) | u128::from(item.width)) << 54) | u128::from(item.address);
        (high << 64) | u128::from(item.value)
    }

    fn pack(self) -> [u8; RECORD]
        ensures { result ≡ bytes_of 16 (packed self.item) }
    {
        self.combine().to_be_bytes()
    }
}

// The item of a record.
pub(crate) fn decode(bytes: &[u8; RECORD]) -> Result<Item, Refusal>
    ensures { result ≡ decoded bytes.now }
{
    let Unpacked { spare, item } = unpack(bytes);
    let accepted = Accepted::try_from(item)?;
    if spare != 0 {
        return Err(Refusal::Fields);
    }
    Ok(accepted.item)
}

// The record of an item.
pub(crate) fn encode(item: Item) -> Result<[u8; RECORD], Refusal>
    ensures { result ≡ encoded item }
{
    Ok(Accepted::try_from(item)?.pack())
}
