// The sizes of accesses, and the widths that stand for them in items.
ghost use Rattle.std.specs.Prelude.{◌≡◌};
ghost use Rattle.tape.specs.Sizes.{size_of, width_of};

// The size that a width stands for, and 8 for one past 3, which no item that is accepted has.
pub fn size(width: u64) -> u64
    ensures { result ≡ size_of width }
{
    match width {
        0 => 1,
        1 => 2,
        2 => 4,
        _ => 8,
    }
}

// The width that stands for a size.
pub fn width(size: u64) -> Option<u64>
    ensures { result ≡ width_of size }
{
    match size {
        1 => Some(0),
        2 => Some(1),
        4 => Some(2),
        8 => Some(3),
        _ => None,
    }
}
