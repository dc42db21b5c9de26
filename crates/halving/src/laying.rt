// The slices of such a dictionary: U16 Variables without names, so that no bytes are used.
ghost use Rattle.std.specs.Prelude.{◌<◌, ◌≤◌};

use crate::Spread;
use answers::Refusal;

#[derive(Clone, Copy)]
pub struct Laid {
    objects: [u64; 12300],
    slots: [u64; 3072],
    words: [u64; 1024],
}

impl Laid {
    // The number of the row at an index, or the refusal.
    pub fn number_at(&self, index: u16) -> Result<u64, Refusal> {
        od::read_u16(&self.objects, &self.slots, &self.words, b"", index, 0)
    }
}

// At most as many rows as there is room for.
pub fn bounded(count: u16) -> usize
    ensures { result ≤ 1024 }
{
    usize::from(count).min(1024)
}

// The index of row i. A first row without one behind it divides by 1.
pub fn index_of(spread: Spread, i: usize) -> u16
    requires { i ≤ 1024 }
{
    let steps = u64::from(spread.count.max(2)) - 1;
    let behind = i as u64 * u64::from(spread.width) / steps;
    spread.first.wrapping_add((behind % 0x1_0000) as u16)
}

fn lay_header(objects: &mut [u64; 12300], count: u64) {
    objects[0] = count;
    objects[1] = count;
    objects[3] = 1;
}

// Row i: its index, ReadWrite, one value, which is value i.
fn lay_row(objects: &mut [u64; 12300], i: usize, index: u16)
    requires { i < 1024 }
{
    let at = 12 * i + 12;
    objects[at] = u64::from(index);
    objects[at + 2] = 3;
    objects[at + 3] = 1;
    objects[at + 4] = i as u64;
}

pub fn many(spread: Spread) -> Laid {
    let mut objects = [0; 12300];
    let mut slots = [0; 3072];
    let mut words = [0; 1024];
    lay_header(&mut objects, u64::from(spread.count));
    for i in 0..bounded(spread.count) {
        lay_row(&mut objects, i, index_of(spread, i));
        slots[3 * i] = 6;
        words[i] = i as u64;
    }
    Laid {
        objects,
        slots,
        words,
    }
}
