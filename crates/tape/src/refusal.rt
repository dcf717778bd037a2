// Why a tape or a list of items is refused, and where.
use refusals::Refusal;

#[derive(Clone, Copy, Debug, PartialEq, Eq)]
pub struct TapeRefusal {
    pub refusal: Refusal,
    // the bad record or item, the whole records present, or the items that fit
    pub index: usize,
}
