// Bytes laid over others, and little-endian numbers in them.
#![tactic(auto)]

ghost use Rattle.std.specs.Prelude.{◌≡◌, ℕ, ◌+◌, ◌-◌, ◌*◌, ◌^◌, ◌≤◌, ◌<◌, length, take, drop, get_or, replicate};
ghost use Rattle.std.proofs.Math.Seq.{slice};
ghost use Rattle.lists.specs.Lists.{over, grown, fallen};
ghost use Rattle.lists.specs.Numbers.{number, bytes_of};

// The number of the two, four and eight bytes from `at` on, by one load. Three functions, as a const parameter could not choose the
// number's type; and by place, as callers count theirs: of `first_chunk` each would have an Option to unwrap.
#[tactic(auto, using(crate::proofs::NumberLaws::read_2))]
fn two(s: &[u8], at: usize) -> u64
    requires { at + 2 ≤ length s.now }
    ensures { result ≡ number (take 2 (drop at s.now)) }
{
    u16::from_le_bytes(s[at..at + 2].try_into().unwrap()) as u64
}

#[tactic(auto, using(crate::proofs::NumberLaws::read_4))]
pub fn four(s: &[u8], at: usize) -> u64
    requires { at + 4 ≤ length s.now }
    ensures { (result ≡ number (take 4 (drop at s.now))) × (result < 4294967296) }
{
    u32::from_le_bytes(s[at..at + 4].try_into().unwrap()) as u64
}

#[tactic(auto, using(crate::proofs::NumberLaws::read_8))]
pub fn eight(s: &[u8], at: usize) -> u64
    requires { at + 8 ≤ length s.now }
    ensures { result ≡ number (take 8 (drop at s.now)) }
{
    u64::from_le_bytes(s[at..at + 8].try_into().unwrap())
}

// The number of any n bytes from `at` on, one by one.
fn each(s: &[u8], at: usize, n: usize) -> u64
    requires { (n ≤ 8) × (at + n ≤ length s.now) }
    ensures { result ≡ number (take n (drop at s.now)) }
{
    // By hand, for speed: an array of eight, laid by `copy_from_slice` and read by `from_le_bytes`, proves, and took 10.0 ns for 6.9, as
    // measured at five and six bytes in turn. In a fold's closure it would not be known that the sum fits.
    let mut sum = 0;
    for i in (0..n).rev() {
        sum = sum * 256 + s[at + i] as u64;
    }
    sum
}

// The number of the n bytes from `at` on.
pub fn number(s: &[u8], at: usize, n: usize) -> u64
    requires { (n ≤ 8) × (at + n ≤ length s.now) }
    ensures { result ≡ number (take n (drop at s.now)) }
{
    match n {
        1 => s[at] as u64,
        2 => two(s, at),
        4 => four(s, at),
        8 => eight(s, at),
        _ => each(s, at, n),
    }
}

// Lays the n bytes of x, its low ones, over s from `at` on.
pub fn put_number(s: &mut [u8], at: usize, n: usize, x: u64)
    requires { at + n ≤ length s.old }
    ensures { s.new ≡ over s.old at (bytes_of n x) }
{
    // `to_le_bytes` has eight bytes, and n may be more.
    let mut rest = x;
    for b in &mut s[at..at + n] {
        *b = (rest % 256) as u8;
        rest /= 256;
    }
}

// Lays src over s from `at` on. One by one, so that the archive asks for memcpy alone: of `copy_from_slice` the compiler makes memmove,
// which the header does not name.
pub fn lay<T: Copy>(s: &mut [T], at: usize, src: &[T])
    requires { at + length src.now ≤ length s.old }
    ensures { s.new ≡ over s.old at src.now }
{
    for j in 0..src.len() {
        s[at + j] = src[j];
    }
}

// Moves the part from `at` up to `used` up by `k` places.
#[tactic(auto, using(crate::proofs::ListLaws::over_moved))]
pub fn move_up<T: Copy>(s: &mut [T], at: usize, used: usize, k: usize)
    requires { (at ≤ used) × (used + k ≤ length s.old) }
    ensures { s.new ≡ over s.old (at + k) (slice at used s.old) }
{
    s.copy_within(at..used, at + k);
}

// Moves the part from `from` up to `end` down to `at`.
#[tactic(auto, using(crate::proofs::ListLaws::over_moved))]
pub fn move_down<T: Copy>(s: &mut [T], at: usize, from: usize, end: usize)
    requires { (at ≤ from) × (from ≤ end) × (end ≤ length s.old) }
    ensures { s.new ≡ over s.old at (slice from end s.old) }
{
    s.copy_within(from..end, at);
}

// Lays k zeros over s from `at` on.
#[tactic(auto, using(crate::proofs::ListLaws::over_part))]
pub fn lay_zeros(s: &mut [u8], at: usize, k: usize)
    requires { at + k ≤ length s.old }
    ensures { s.new ≡ over s.old at (replicate k 0) }
{
    s[at..at + k].fill(0);
}

// Adds x to n elements, at place `at` and at each d further on.
#[tactic(auto, using(crate::proofs::SpliceLaws::stride))]
pub fn grow(s: &mut [u64], at: usize, d: usize, n: usize, x: u64)
    requires d_bound { (d ≤ 12) × (n ≤ 6144) × (at + d * n < length s.old + d) × (0 < d) }
    requires by_index { (j : ℕ) → j < n → get_or s.old (at + d * j) 0 + x < 2 ^ 64 }
    ensures { s.new ≡ grown d x n at s.old }
{
    for j in 0..n {
        s[at + d * j] += x;
    }
}

// Takes x from n elements, at place `at` and at each d further on. It shares no loop with `grow`: a closure for the sum or the difference
// would need a clause for each element, as `by_index`, of the closure's relation.
#[tactic(auto, using(crate::proofs::SpliceLaws::stride))]
pub fn fall(s: &mut [u64], at: usize, d: usize, n: usize, x: u64)
    requires { (d ≤ 12) × (n ≤ 6144) × (at + d * n < length s.old + d) × (0 < d) }
    ensures { s.new ≡ fallen d x n at s.old }
{
    for j in 0..n {
        let p = at + d * j;
        s[p] = s[p].saturating_sub(x);
    }
}
