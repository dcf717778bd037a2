// What a line of a script asks for. Its numbers are any, and the bank refuses them.
#[derive(Clone, Copy, PartialEq, Eq, Debug)]
pub enum Command {
    // read a register
    Read {
        privilege: u64,
        number: u64,
    },
    // write a register
    Write {
        privilege: u64,
        number: u64,
        word: u32,
    },
    // the verdict on an access
    Check {
        privilege: u64,
        kind: u64,
        address: u64,
        size: u64,
    },
    // the range of an entry
    Range {
        index: u64,
    },
    // the word of a range: its base and the exponent of its size
    Word {
        base: u64,
        exponent: u64,
    },
    Reset,
}
