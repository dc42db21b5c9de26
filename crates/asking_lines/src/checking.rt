// Lines that check channels and a mapping's count, and explain elements. Zeros are lent, so that a number behind the results shows
// where it is touched.
use c_answers::number_of;
use memory::Memory;
use tokens::{NUMBERS, are, index_at, next, number, sub_at};

pub fn channel_line(s: &[u8], at: usize, m: &Memory) -> bool {
    let answer = next(s, at);
    let expected = number(s, answer);
    let a = m.check(sub_at(s, at));
    channel::number(a) == expected
        && (expected == 1 || channel::named(a) == number(s, next(s, answer)))
}

// Into `out`, all of which is lent; the answer starts at `at`.
fn all_are(s: &[u8], at: usize, m: &Memory, out: &mut [u64]) -> bool {
    let expected = number(s, at);
    match m.check_all(out) {
        Ok(n) => {
            let count = next(s, at);
            expected == 0 && n as u64 == number(s, count) && are(s, next(s, count), out, n as u64)
        }
        Err(r) => expected == answers::number(r) && are(s, at, out, 0),
    }
}

pub fn channels_line(s: &[u8], at: usize, m: &Memory) -> bool {
    let mut out = [0; NUMBERS];
    let room = (number(s, at) % 1025) as usize;
    all_are(s, next(s, at), m, &mut out[..room])
}

pub fn element_line(s: &[u8], at: usize, m: &Memory) -> bool {
    let element = next(s, at);
    let answer = next(s, element);
    let expected = number(s, answer);
    let e = m.explain(sub_at(s, at), sub_at(s, element));
    match e {
        Err(r) => expected == answers::number(r),
        Ok(_) => { expected == 0 && are(s, next(s, answer), &element::explained_numbers(e), 11) }
    }
}

pub fn count_line(s: &[u8], at: usize, m: &Memory) -> bool {
    let count = next(s, at);
    let answer = m.validate_pdo_mapping(index_at(s, at), sub_at(s, count));
    number_of(answer) == number(s, next(s, count))
}
