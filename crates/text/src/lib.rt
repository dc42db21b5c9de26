// Is a byte slice well-formed UTF-8 (the Unicode Standard, Table 3-7), and if not, at which byte does it stop being so?
// The bytes are gone through once, by a table of byte classes and a table of states.
#![tactic(auto)]

mod tables;

ghost use Rattle.std.specs.Prelude.{◌≡◌, [], true, ℕ, ◌+◌, ◌≤◌, ◌<◌, T, IfSome, length, take, drop, get_or, nat_eq, nat_lt, bit_and, bit_or, fold};
ghost use Rattle.std.specs.Int.{w64, from_le_bytes};
ghost use Rattle.std.specs.List.{prefix_len};
ghost use Rattle.std.specs.Option.{option_map};
ghost use Rattle.text.specs.Machine.{step, judge, judge_at, Skipped};
ghost use Rattle.text.specs.Tables.{tables, asks};

use tables::{AFTER, CLASS};

// The number of the state after the byte b in the state q, where a text goes on with b.
fn next(class: &[u8; 256], after: &[u8; 96], q: usize, b: u8) -> Option<usize>
    requires t { T (tables class.now after.now) }
    requires q_bound { q < 8 }
    ensures state { option_map asks result ≡ step (asks q) b }
    ensures bound { IfSome result (λ n. n < 8) }
{
    let c = class[b as usize] as usize;
    let n = after[c * 8 + q] as usize;
    (n < 8).then_some(n)
}

// Whether the four bytes from i on are ASCII: one test of their high bits. A const parameter could not choose the number's type.
fn four_ascii(s: &[u8], i: usize) -> bool
    requires { i + 4 ≤ length s.now }
    ensures { result ≡ true → (k : ℕ) → i ≤ k → k < i + 4 → get_or s.now k 0 ≤ 127 }
{
    lists::four(s, i) & 0x8080_8080 == 0
}

// Whether the eight bytes of a number are.
fn eight_ascii(n: u64) -> bool
    ensures { result ≡ nat_eq (bit_and n 0x8080808080808080) 0 }
{
    n & 0x8080_8080_8080_8080 == 0
}

// How many blocks from the first on are ASCII.
fn ascii_blocks(blocks: &[[u8; 8]]) -> usize
    ensures { result ≡ prefix_len (λ b. nat_eq (bit_and (from_le_bytes w64 b) 0x8080808080808080) 0) blocks.now }
{
    blocks
        .iter()
        .take_while(|block| eight_ascii(u64::from_le_bytes(**block)))
        .count()
}

// Passes ASCII from `from` on, eight bytes a turn, for speed: it stops before the first eight that are not all ASCII.
fn blocks(s: &[u8], from: usize) -> usize
    requires { from ≤ length s.now }
    ensures { Skipped s.now from result }
{
    let (blocks, _) = s[from..].as_chunks::<8>();
    from + 8 * ascii_blocks(blocks)
}

// Passes four bytes more, where they are ASCII.
fn half_block(s: &[u8], from: usize) -> usize
    requires { from ≤ length s.now }
    ensures { Skipped s.now from result }
{
    if s.len() - from < 4 {
        return from;
    }
    if four_ascii(s, from) { from + 4 } else { from }
}

// Passes ASCII by blocks, where four bytes are ASCII at all: most runs between umlauts are shorter, and cutting blocks costs more than they.
fn long_run(s: &[u8], from: usize) -> usize
    requires { from ≤ length s.now }
    ensures { Skipped s.now from result }
{
    let near = half_block(s, from);
    if near == from {
        return from;
    }
    blocks(s, near)
}

// Passes ASCII up to the first byte that is not.
fn ascii(s: &[u8], from: usize) -> usize
    requires { from ≤ length s.now }
    ensures { Skipped s.now from result }
{
    // By hand, for speed: a `for` that returns, and `take_while` with `count`, prove, and took up to a quarter longer, as measured on long
    // texts with umlauts.
    let mut i = long_run(s, from);
    while i < s.len() && s[i] < 128 {
        i += 1;
    }
    i
}

// The answer from `from` on, where a character begins.
fn walk(class: &[u8; 256], after: &[u8; 96], s: &[u8], from: usize) -> Result<(), usize>
    requires t { T (tables class.now after.now) }
    requires from_in_bounds { from ≤ length s.now }
    ensures { result ≡ judge_at from [] (drop from s.now) }
{
    // No range has these places: i passes all ASCII at once.
    let mut q: usize = 0;
    let mut i = from;
    while i < s.len() {
        let b = s[i];
        if q == 0 && b < 128 {
            i = ascii(s, i + 1);
        } else {
            let Some(n) = next(class, after, q, b) else {
                return Err(i);
            };
            q = n;
            i += 1;
        }
    }
    if q == 0 { Ok(()) } else { Err(i) }
}

// A constant array is built on the stack at each use: here once a call.
fn by_tables(s: &[u8], from: usize) -> Result<(), usize>
    requires { from ≤ length s.now }
    ensures { result ≡ judge_at from [] (drop from s.now) }
{
    walk(&CLASS, &AFTER, s, from)
}

// Whether a character of two bytes stands at i, as an umlaut.
fn pair(s: &[u8], i: usize) -> bool
    requires { i ≤ length s.now }
    ensures { result ≡ true → Skipped s.now i (i + 2) }
{
    if s.len() - i < 2 {
        return false;
    }
    let b = s[i];
    let c = s[i + 1];
    ((0xC2 <= b) & (b <= 0xDF)) & ((0x80 <= c) & (c <= 0xBF))
}

// The answer on all the bytes. The tables are asked from the first character on that is longer than two bytes, or wrong.
pub fn text_ok(s: &[u8]) -> Result<(), usize>
    ensures { result ≡ judge s.now }
{
    // No range has these places: i passes all ASCII at once.
    let mut i = ascii(s, 0);
    while i < s.len() {
        if !pair(s, i) {
            return by_tables(s, i);
        }
        i = ascii(s, i + 2);
    }
    Ok(())
}

// Whether few bytes are ASCII: one test of all of them.
fn few_ascii(s: &[u8]) -> bool
    ensures { result ≡ nat_lt (fold bit_or 0 s.now) 128 }
{
    s.iter().fold(0, |all, b| all | *b) < 128
}

// Whether bytes, at most 32 as a name has, are ASCII: at most four loads, which may overlap.
fn short_ascii(s: &[u8]) -> bool
    requires { length s.now ≤ 32 }
    ensures { result ≡ true → (k : ℕ) → k < length s.now → get_or s.now k 0 ≤ 127 }
{
    let n = s.len();
    if n < 8 {
        return few_ascii(s);
    }
    let outer = eight_ascii(lists::eight(s, 0)) & eight_ascii(lists::eight(s, n - 8));
    if n <= 16 {
        return outer;
    }
    outer & (eight_ascii(lists::eight(s, 8)) & eight_ascii(lists::eight(s, n - 16)))
}

// The answer of `text_ok`, and soon where the bytes are few, as in most names.
pub fn part_ok(s: &[u8]) -> Result<(), usize>
    ensures { result ≡ judge s.now }
{
    if s.len() <= 32 && short_ascii(s) {
        return Ok(());
    }
    text_ok(s)
}
