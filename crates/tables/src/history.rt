// Histories: lines that call one dictionary after another, each with the answer that it must give. It has room for 8 objects,
// 300 values and 1,200 bytes, and the store beside it has 1,000 bytes.
//   N ANSWER                                               an empty dictionary of edition 1
//   E EDITION ANSWER                                       an empty dictionary of an edition
//   I INDEX KIND ACCESS DEFAULT NAME VALS BYTES ANSWER     insertion; VALS has four digits a number, BYTES the encodings
//   J TYPE LOW TYPE HIGH, and behind them what I has       insertion with a range, each end with its type
//   R INDEX SUB ANSWER [TYPE WORD PART]                    reading, and the part
//   U TYPE INDEX SUB ANSWER [NUMBER]                       reading a number of a type
//   F NAME ANSWER [INDEX]                                  finding by name
//   C SIZE ANSWER [LIST]                                   the configured nodes, into SIZE bytes
//   P INDEX SUB ANSWER                                     counting up
//   W SIZE INDEX SUB TYPE DATA ANSWER [PLACE | NEEDED HAD]
//                                                          writing, with the store's first SIZE bytes; DATA is the encoding, and
//                                                          where it does not decode the line has what its fault says
//   V INDEX COUNT ANSWER                                   the check of a mapping's count
//   O SIZE FIRST LAST ANSWER                               restoring power-on values, from the store's first SIZE bytes
//   A ROOM SENDER VERSION READY PAYLOAD ANSWER [COUNT EVENTS]
//                                                          consuming a payload, with an event list of ROOM numbers; the events,
//                                                          COUNT of them, are numbers with spaces between them
//   Y ROOM DATA COUNT NUMBERS ANSWER [CONSUMED COUNT EVENTS]
//                                                          consuming a cycle; COUNT numbers say its payloads, five each
//   K CHANNEL ANSWER [ELEMENT]                             the check of a channel
//   L ROOM ANSWER [COUNT NUMBERS]                          the check of all channels, into ROOM numbers
//   X CHANNEL ELEMENT ANSWER [NUMBERS]                     explaining an element, in eleven numbers
//   B INDEX NODE ANSWER                                    setting a node's bit in the error object at an index
//   D SLICE PLACE VALUE                                    damage: sets an element of slice 0 to 3, or of the store, 4
//   S SUM                                                  the sum over the dictionary
//   T SUM                                                  the sum over the dictionary and the store
//   H COUNT FIRST WIDTH INDEX ANSWER [ROW]                 looking an index up, in a dictionary of its own: COUNT rows, row i at
//                                                          FIRST + i * WIDTH / (COUNT - 1)
//   G COUNT FIRST WIDTH FOUND MISSING SUM                  the same at each row and beside each, with a sum over the answers
use crate::looking::{lookup_line, sweep_line};
use answers::Refusal;
use asking_lines::{
    channel_line, channels_line, count_line, element_line, name_line, nodes_line, read_line, sum,
    sum_with_store, typed_line,
};
use c_answers::number_of;
use changing_lines::{
    bit_line, counter_line, damage, insert_line, ranged_line, restore_line, write_line,
};
use consuming_lines::{consume_line, cycle_line};
use memory::Memory;
use tokens::{last, next, number};

fn damage_line(s: &[u8], at: usize, m: &mut Memory) -> bool {
    let place = next(s, at);
    let value = number(s, next(s, place));
    damage(m, number(s, at), number(s, place) as usize, value)
}

// A line that asks of the memory as it is, or of the codec.
fn asked(kind: u8, s: &[u8], at: usize, m: &Memory) -> bool {
    match kind {
        b'R' => read_line(s, at, m),
        b'U' => typed_line(s, at, m),
        b'F' => name_line(s, at, m),
        b'C' => nodes_line(s, at, m),
        b'V' => count_line(s, at, m),
        b'K' => channel_line(s, at, m),
        b'L' => channels_line(s, at, m),
        b'X' => element_line(s, at, m),
        b'H' => lookup_line(s, at),
        b'G' => sweep_line(s, at),
        b'S' => sum(m) == number(s, at),
        b'T' => sum_with_store(m) == number(s, at),
        b'#' => true,
        _ => codec_lines::asked(kind, s, at),
    }
}

// Is it what the last number of the line says, 0 where the call was done?
fn is_last(answer: Result<(), Refusal>, s: &[u8], at: usize) -> bool {
    number_of(answer) == last(s, at)
}

// Does the call of the line that starts at `at`, behind its letter, give its answer? Of a call that only changes memory, this is the
// line's last number. A `match`, and no table of functions: the letter is data, and the steps differ in what they take.
pub fn take_turn(kind: u8, s: &[u8], at: usize, m: &mut Memory) -> bool {
    match kind {
        b'N' => is_last(m.new(1), s, at),
        b'E' => is_last(m.new(number(s, at)), s, at),
        b'I' => is_last(insert_line(s, at, m), s, at),
        b'J' => is_last(ranged_line(s, at, m), s, at),
        b'P' => is_last(counter_line(s, at, m), s, at),
        b'W' => write_line(s, at, m),
        b'O' => is_last(restore_line(s, at, m), s, at),
        b'B' => is_last(bit_line(s, at, m), s, at),
        b'A' => consume_line(s, at, m),
        b'Y' => cycle_line(s, at, m),
        b'D' => damage_line(s, at, m),
        _ => asked(kind, s, at, m),
    }
}
