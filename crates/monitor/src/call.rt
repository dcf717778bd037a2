// One call on a machine, with its arguments: any numbers.
#[derive(Clone, Copy, Debug, PartialEq, Eq)]
pub enum Call {
    Create {
        slot: u64,
        base: u64,
        exponent: u64,
    },
    Enter {
        slot: u64,
    },
    Pause,
    Finish {
        word: u64,
    },
    Destroy {
        slot: u64,
    },
    // Four numbers and not a struct: the laws name an access by its numbers, as every call.
    Access {
        kind: u64,
        address: u64,
        size: u64,
        value: u64,
    },
    Register {
        number: u64,
        word: u64,
    },
}
