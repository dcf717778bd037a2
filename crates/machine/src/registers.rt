// The bank's registers, reached only through the guard, at the privilege to which it has raised the
// hart.
ghost use Rattle.std.specs.Prelude.{◌≡◌};
ghost use Rattle.bank.specs.Content.{blank};
ghost use Rattle.bank.specs.Registers.{written};
ghost use Rattle.bank.specs.declared.privilege.Privilege.TheVariants.{Machine};
ghost use Rattle.monitor.specs.Content.{address, configure, new_bank};

use crate::entry::Entry;
use crate::hart::Raised;
use bank::Bank;

impl Raised<'_> {
    fn write(&self, bank: &mut Bank, number: u64, word: u32)
        requires { self.now.hart.now.privilege ≡ Machine }
        ensures { bank.new ≡ written bank.old 3 number word }
    {
        let _ = bank.write(self.hart.privilege.into(), number, word);
    }

    // Writes an entry's byte; the other three of its register stay.
    pub(crate) fn set_byte(&self, bank: &mut Bank, entry: Entry, byte: u8)
        requires { self.now.hart.now.privilege ≡ Machine }
        ensures { bank.new ≡ configure bank.old entry byte }
    {
        let number = 0x3A0 + entry.number / 4;
        if let Ok(word) = bank.read(self.hart.privilege.into(), number) {
            let mut bytes = word.to_le_bytes();
            bytes[(entry.number % 4) as usize] = byte;
            self.write(bank, number, u32::from_le_bytes(bytes));
        }
    }

    // Writes an entry's word.
    pub(crate) fn set_word(&self, bank: &mut Bank, entry: Entry, word: u32)
        requires { self.now.hart.now.privilege ≡ Machine }
        ensures { bank.new ≡ address bank.old entry word }
    {
        self.write(bank, 0x3B0 + entry.number, word);
    }

    // Puts the monitor page, the common page and the operating system's entry into a new bank.
    pub(crate) fn set_up(&self, bank: &mut Bank)
        requires raised { self.now.hart.now.privilege ≡ Machine }
        requires new { bank.old ≡ blank }
        ensures { bank.new ≡ new_bank }
    {
        self.write(bank, 0x3B0, 0x1FF);
        self.write(bank, 0x3B1, 0x5FF);
        self.write(bank, 0x3BF, 0xFFFF_FFFF);
        self.write(bank, 0x3A0, 0x9D18);
        self.write(bank, 0x3A3, 0x1F00_0000);
    }
}
