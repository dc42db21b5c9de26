// Lines of the codec: a call and the answer that it must give. The first letter says which call:
//   w WORD INDEX SUB OFFSET LENGTH ENCODED       the parts of a mapping word, and the word that they make
//   f WORD START LENGTH END                      a mapping word's field in bytes; 10000 for a START or a LENGTH that is not whole bytes
//   d TYPE DATA ANSWER [WORD F0 F1 F2 F3 F4 F5 | PLACE | NEEDED HAD]
//                                                decoding: the answer's number, and the word and the value's parts or what its fault says
//   e TYPE WORD PART BYTES                       encoding
//   r TYPE WORD PART SIZE ANSWER                 encoding into SIZE bytes is refused
//   v NUMBER EVENT                               1 for the number of an event, else 0
//   t DATA PLACE                                 no text: the place of the first byte at which none goes on
use crate::records::says;
use answers::Refusal;
use loomfinch::{CodecFault, DecodeFault, ObjectValue, PdoMappingEntry};
use mapping::Field;
use tokens::{ROOM, are, bytes, has_next, next, number};

fn word_line(s: &[u8], at: usize) -> bool {
    let e = PdoMappingEntry::from_u64(number(s, at));
    let index = next(s, at);
    let sub = next(s, index);
    let offset = next(s, sub);
    let length = next(s, offset);
    let encoded = next(s, length);
    u64::from(e.index) == number(s, index)
        && u64::from(e.sub_index) == number(s, sub)
        && u64::from(e.offset_bits) == number(s, offset)
        && u64::from(e.length_bits) == number(s, length)
        && e.to_u64() == number(s, encoded)
}

// A number that no count of bytes is: it stands for what is not whole bytes.
const MISALIGNED: u64 = 0x1_0000;

fn aligned(a: Option<usize>) -> u64 {
    match a {
        Some(n) => n as u64,
        None => MISALIGNED,
    }
}

// The field is whole where both its numbers are, and then has them.
fn is_field(f: Option<Field>, start: u64, length: u64) -> bool {
    match f {
        Some(
            Field {
                start: s,
                length: n,
            },
        ) => s as u64 == start && n as u64 == length,
        None => start == MISALIGNED || length == MISALIGNED,
    }
}

fn field_line(s: &[u8], at: usize) -> bool {
    let e = PdoMappingEntry::from_u64(number(s, at));
    let start_at = next(s, at);
    let length_at = next(s, start_at);
    let start = number(s, start_at);
    let length = number(s, length_at);
    aligned(e.byte_offset()) == start
        && aligned(e.byte_length()) == length
        && e.end() as u64 == number(s, next(s, length_at))
        && is_field(e.field(), start, length)
}

// The word and the six parts that start at `at`.
fn value_is(v: ObjectValue, s: &[u8], at: usize) -> bool {
    object_value::to_word(v) == number(s, at) && are(s, next(s, at), &object_value::fields(v), 6)
}

// Are the numbers behind the answer at `answer` what a fault says, and are there no more?
pub fn tells(f: CodecFault, s: &[u8], answer: usize) -> bool {
    let first = next(s, answer);
    match f {
        CodecFault::Value { needed, had } => {
            let second = next(s, first);
            has_next(s, first)
                && number(s, first) == needed as u64
                && number(s, second) == had as u64
                && !has_next(s, second)
        }
        CodecFault::Text { at } => {
            has_next(s, answer) && number(s, first) == at as u64 && !has_next(s, first)
        }
        CodecFault::Odd => !has_next(s, answer),
    }
}

fn decode_line(s: &[u8], at: usize) -> bool {
    let mut data = [0; ROOM];
    let from = next(s, at);
    let n = bytes(s, from, &mut data);
    let answer = next(s, from);
    let expected = number(s, answer);
    match loomfinch::decode(number(s, at), &data[..n]) {
        Ok(v) => expected == 0 && value_is(v, s, next(s, answer)),
        Err(DecodeFault::NoType) => expected == 2 && !has_next(s, answer),
        Err(DecodeFault::Fails(f)) => {
            expected == answers::number(value::refusal(f)) && tells(f, s, answer)
        }
    }
}

// Are the first bytes of the output, as many as were written, those that start at `at`?
fn wrote(s: &[u8], at: usize, a: Result<usize, Refusal>, out: &[u8]) -> bool {
    let mut expected = [0; ROOM];
    let e = bytes(s, at, &mut expected);
    match a {
        Ok(n) => out.get(..n) == Some(&expected[..e]),
        Err(_) => false,
    }
}

// By the type's number and the word, and as a value.
fn encode_line(s: &[u8], at: usize) -> bool {
    let mut part = [0; ROOM];
    let mut of_word = [0; ROOM];
    let mut of_value = [0; ROOM];
    let word_at = next(s, at);
    let part_at = next(s, word_at);
    let behind = next(s, part_at);
    let p = bytes(s, part_at, &mut part);
    let t = number(s, at);
    let word = number(s, word_at);
    let v = object_value::from_word(t, word);
    let by_word = value::encode_word(t, word, &part[..p], &mut of_word);
    let by_value = loomfinch::encode(v, &part[..p], &mut of_value);
    wrote(s, behind, by_word, &of_word) && wrote(s, behind, by_value, &of_value)
}

fn refused_line(s: &[u8], at: usize) -> bool {
    let mut part = [0; ROOM];
    let mut out = [0; ROOM];
    let word = next(s, at);
    let from = next(s, word);
    let p = bytes(s, from, &mut part);
    let size = next(s, from);
    let answer = next(s, size);
    let n = (number(s, size) % 2048) as usize;
    match value::encode_word(number(s, at), number(s, word), &part[..p], &mut out[..n]) {
        Ok(_) => false,
        Err(r) => number(s, answer) == answers::number(r),
    }
}

fn event_line(s: &[u8], at: usize) -> bool {
    says(number(s, at)) == (number(s, next(s, at)) == 1)
}

fn text_line(s: &[u8], at: usize) -> bool {
    let mut data = [0; ROOM];
    let n = bytes(s, at, &mut data);
    match text::text_ok(&data[..n]) {
        Ok(()) => false,
        Err(k) => k as u64 == number(s, next(s, at)),
    }
}

// Does the call of a line, whose letter is `kind` and whose first token starts at `at`, give its answer?
pub fn asked(kind: u8, s: &[u8], at: usize) -> bool {
    match kind {
        b'w' => word_line(s, at),
        b'f' => field_line(s, at),
        b'd' => decode_line(s, at),
        b'e' => encode_line(s, at),
        b'r' => refused_line(s, at),
        b't' => text_line(s, at),
        b'v' => event_line(s, at),
        _ => false,
    }
}
