// An item: a call as the numbers of its record, the spare bits left out. They may be any numbers.
#[derive(Clone, Copy, Debug, Default, PartialEq, Eq)]
pub struct Item {
    pub operation: u64,
    pub slot: u64,
    pub width: u64,
    pub address: u64,
    pub value: u64,
}
