// Room for what a line gives, sums, and numbers held against a line's.
ghost use Rattle.tokens.specs.Tokens.{Counts};

use crate::hex::{next, number};

// The most bytes that a token says, and the most numbers that a line has.
pub const ROOM: usize = 4096;

pub const NUMBERS: usize = 1024;

// Numbers of two bytes each, the high one first.
pub fn pairs(from: &[u8], out: &mut [u64]) -> usize
    ensures { Counts result out.new }
{
    for (x, pair) in out.iter_mut().zip(from.chunks_exact(2)) {
        *x = u64::from(u16::from_be_bytes([pair[0], pair[1]]));
    }
    out.len().min(from.len() / 2)
}

// Puts the n numbers that start at `at` into `out`, as many as it has room for, and answers where the next token starts.
pub fn listed(s: &[u8], at: usize, n: usize, out: &mut [u64]) -> usize {
    let mut p = at;
    for x in out.iter_mut().take(n) {
        *x = number(s, p);
        p = next(s, p);
    }
    p
}

// One element more of a sum.
fn added(sum: u64, x: u64) -> u64 {
    sum % 0x1_0000_0000 * 65599 + x % 0x1_0000_0000 + x / 0x1_0000_0000
}

// The sum of all elements, on from the one before.
pub fn sum_of<T: Copy + Into<u64>>(xs: &[T], before: u64) -> u64 {
    xs.iter().fold(before, |sum, x| added(sum, (*x).into()))
}

// Are the first n of the numbers those that start at `at`, and all behind them 0?
pub fn are(s: &[u8], at: usize, all: &[u64], n: u64) -> bool {
    let mut p = at;
    for (i, x) in all.iter().enumerate() {
        let expected = if (i as u64) < n { number(s, p) } else { 0 };
        if *x != expected {
            return false;
        }
        p = next(s, p);
    }
    n <= all.len() as u64
}
