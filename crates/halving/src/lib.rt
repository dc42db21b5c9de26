// Dictionaries of up to 1,024 rows, looked up at each row and beside each: for lines of tables, whose own dictionary has 8 objects.
#![tactic(auto)]

mod laying;

use answers::Refusal;
use laying::{bounded, index_of, many};

// So many rows, from an index on; the last is `width` behind the first, and those between lie evenly. Row i holds i.
#[derive(Clone, Copy)]
pub struct Spread {
    pub count: u16,
    pub first: u16,
    pub width: u16,
}

// How often a row was found and how often none, and a sum over all answers in turn. Each has an odd factor there, modulo 2^32, so
// that no single wrong answer leaves the sum as it was.
#[derive(Clone, Copy, Default)]
pub struct Swept {
    pub found: u64,
    pub missing: u64,
    pub sum: u64,
}

// The row's number at an index, or the refusal.
pub fn looked_up(spread: Spread, index: u16) -> Result<u64, Refusal> {
    many(spread).number_at(index)
}

// One answer more: a row's number, or a refusal's above all of these.
fn told(before: Swept, answer: Result<u64, Refusal>) -> Swept {
    let sum = before.sum % 0x1_0000_0000 * 65599;
    match answer {
        Ok(row) => Swept {
            found: before.found.wrapping_add(1),
            sum: sum.wrapping_add(row),
            ..before
        },
        Err(r) => Swept {
            missing: before.missing.wrapping_add(1),
            sum: (sum + 0x1_0000).wrapping_add(answers::number(r)),
            ..before
        },
    }
}

// At each row and beside each, below it and above it.
pub fn sweep(spread: Spread) -> Swept {
    let rows = many(spread);
    let mut swept = Swept::default();
    for i in 0..bounded(spread.count) {
        let index = index_of(spread, i);
        for near in index.saturating_sub(1)..=index.saturating_add(1) {
            swept = told(swept, rows.number_at(near));
        }
    }
    swept
}
