// How an entry says its range: bits 4 and 3 of its byte.
#[derive(Clone, Copy, Debug, PartialEq, Eq)]
pub(crate) enum Mode {
    // no range
    Off,
    // from the word below to its own
    Tor,
    // four bytes
    Na4,
    // a power of two, by the word's trailing ones
    Napot,
}

// The mode of a byte.
impl From<u8> for Mode {
    ghost use Rattle.bank.specs.Mode.{mode_of};
    ghost use Rattle.std.specs.Prelude.{◌≡◌};

    ghost from_gives = { λ byte mode. mode ≡ mode_of byte };

    fn from(byte: u8) -> Mode {
        match byte & 0x18 {
            0 => Mode::Off,
            0x08 => Mode::Tor,
            0x10 => Mode::Na4,
            _ => Mode::Napot,
        }
    }
}
