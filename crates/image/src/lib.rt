// Whether the lent store holds a readable image: judged wholly, in one pass; and which rows a list or a range has.
#![tactic(auto)]

mod ranging;

ghost use Rattle.std.specs.Prelude.{◌≡◌, ◌+◌, ◌*◌, ◌≤◌, ◌<◌, length, take, drop};
ghost use Rattle.value.specs.Codec.{exact};
ghost use Rattle.image.specs.Readable.{head_in, stands, heads_ok, readable};

pub use ranging::{range_of, rows_in};

// The numbers of a record's head.
#[derive(Clone, Copy)]
pub struct Head {
    pub key: u64,
    pub value_type: u64,
    pub start: usize,
    pub size: usize,
}

// The head of the record at place a.
pub fn head_in(s: &[u8], a: usize) -> Head
    requires { a + 8 ≤ length s.now }
    ensures { result ≡ head_in s.now a }
{
    let index = lists::number(s, a, 2);
    let sub = lists::number(s, a + 2, 1);
    Head {
        key: 256 * index + sub,
        value_type: lists::number(s, a + 3, 1),
        start: lists::number(s, a + 4, 2) as usize,
        size: lists::number(s, a + 6, 2) as usize,
    }
}

// Whether a record stands right behind `sum` bytes of the bodies, which lie from place b on, with a key not below low.
fn placed(s: &[u8], head: Head, b: usize, sum: usize, low: u64) -> bool
    requires { (head.size < 65536) × (b ≤ 16386) × (sum ≤ 16384) }
    ensures { result ≡ stands (length s.now) head b sum low }
{
    let end = sum + head.size;
    (low <= head.key) & ((head.start == sum) & ((end <= 16384) & (b + end <= s.len())))
}

// Whether its body, which lies from place p on, is exactly a value of its type.
#[tactic(auto, unfolding(value::specs::Codec::exact))]
fn exact_at(s: &[u8], head: Head, p: usize) -> bool
    requires { p + head.size ≤ length s.now }
    ensures { result ≡ exact head.value_type (take head.size (drop p s.now)) }
{
    value::exactly(head.value_type, &s[p..p + head.size]).is_ok()
}

fn heads_ok(s: &[u8], count: usize) -> bool
    requires { (count ≤ 2048) × (2 + 8 * count ≤ length s.now) }
    ensures { result ≡ heads_ok s.now count 2 (2 + 8 * count) 0 0 }
{
    let b = 2 + 8 * count;
    let mut sum = 0;
    let mut low = 0;
    for k in 0..count {
        let head = head_in(s, 2 + 8 * k);
        if !placed(s, head, b, sum, low) {
            return false;
        }
        if !exact_at(s, head, b + sum) {
            return false;
        }
        sum += head.size;
        low = head.key + 1;
    }
    true
}

#[tactic(auto, using(crate::proofs::ReadLaws::no_count, crate::proofs::ReadLaws::many, crate::proofs::ReadLaws::short, crate::proofs::ReadLaws::counted))]
pub fn judge_image(store: &[u8]) -> bool
    ensures { result ≡ readable store.now }
{
    if store.len() < 2 {
        return false;
    }
    let r = lists::number(store, 0, 2) as usize;
    if 2048 < r {
        return false;
    }
    if store.len() < 2 + 8 * r {
        return false;
    }
    heads_ok(store, r)
}
