// Ranges of indices, and their rows.
ghost use Rattle.std.specs.Prelude.{◌≡◌};
ghost use Rattle.entry.specs.Find.{Rows};
ghost use Rattle.image.specs.Ranges.{range_of, Spans};

use std::ops::{Range, RangeInclusive};

#[tactic(auto, unfolding(crate::specs::Ranges::range_of))]
pub fn range_of(list: u8) -> RangeInclusive<u16>
    ensures { result ≡ range_of list }
{
    match list {
        1 => 0..=0xFFFF,
        2 => 0x1000..=0x1FFF,
        3 => 0x6000..=0x9FFF,
        _ => 1..=0,
    }
}

// The rows whose index is from the first to the last, found by halves.
pub fn rows_in(objects: &[u64], first: u16, last: u16) -> Range<usize>
    requires { Rows objects.now }
    ensures { Spans objects.now first last result }
{
    entry::lower(objects, first as u64)..entry::lower(objects, last as u64 + 1)
}
