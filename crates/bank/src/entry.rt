// How many entries a bank has.
pub(crate) const COUNT: usize = 16;

// One entry: its configuration byte and its address word.
#[derive(Clone, Copy)]
pub struct Entry {
    pub(crate) config: u8,
    pub(crate) word: u32,
}
