// Lines of tables that consume payloads and cycles. An event list of zeros is lent: no event is 0, so that a number behind the events
// shows where it is touched.
#![tactic(auto)]

use answers::Refusal;
use asking_lines::sum;
use codec_lines::say;
use memory::Memory;
use receiving::{BLANK, Logged};
use tokens::{NUMBERS, ROOM, are, bytes, listed, next, number, sub_at};

// A payload as a line gives it.
#[derive(Clone, Copy)]
struct Given {
    sender: u8,
    version: u8,
    ready: bool,
}

// The same payload into a list of records, on the memory as it was before: the answer, the dictionary and the events must be those of
// the list of numbers, after which the dictionary is `after`.
fn same_by_records(
    before: Memory,
    payload: &[u8],
    given: Given,
    logged: &Logged<usize>,
    after: &Memory,
) -> bool {
    let mut m = before;
    let recorded = receiving::consume_recorded(
        &mut m,
        payload,
        given.sender,
        given.version,
        given.ready,
    );
    let told = match (recorded.answer, logged.answer) {
        (Ok(n), Ok(count)) => n == count && say(&recorded.events, &logged.events, n, BLANK),
        (Err(r), Err(q)) => {
            answers::number(r) == answers::number(q)
                && say(&recorded.events, &logged.events, 0, BLANK)
        }
        _ => false,
    };
    told && sum(&m) == sum(after)
}

// The answer, with how many events there are, starts at `at`, their count at `count`, and the events behind it.
fn log_is(
    s: &[u8],
    at: usize,
    count: usize,
    answer: Result<usize, Refusal>,
    events: &[u64; 1024],
) -> bool {
    let expected = number(s, at);
    match answer {
        Ok(n) => {
            expected == 0
                && n as u64 == number(s, count)
                && are(s, next(s, count), events, n as u64)
        }
        Err(r) => expected == answers::number(r) && are(s, at, events, 0),
    }
}

pub fn consume_line(s: &[u8], at: usize, m: &mut Memory) -> bool {
    let sender = next(s, at);
    let version = next(s, sender);
    let ready = next(s, version);
    let payload_at = next(s, ready);
    let mut payload = [0; ROOM];
    let n = bytes(s, payload_at, &mut payload);
    let given = Given {
        sender: sub_at(s, sender),
        version: sub_at(s, version),
        ready: number(s, ready) != 0,
    };
    let list = (number(s, at) % 1025) as usize;
    let before = *m;
    let logged = receiving::consume_logged(
        m,
        &payload[..n],
        given.sender,
        given.version,
        given.ready,
        list,
    );
    let answer = next(s, payload_at);
    log_is(s, answer, next(s, answer), logged.answer, &logged.events)
        && (list < 254 || same_by_records(before, &payload[..n], given, &logged, m))
}

pub fn cycle_line(s: &[u8], at: usize, m: &mut Memory) -> bool {
    let data_at = next(s, at);
    let count_at = next(s, data_at);
    let mut data = [0; ROOM];
    let n = bytes(s, data_at, &mut data);
    let mut payloads = [0; NUMBERS];
    let count = (number(s, count_at) % 1025) as usize;
    let answer = listed(s, next(s, count_at), count, &mut payloads);
    let list = (number(s, at) % 1025) as usize;
    let logged = receiving::consume_cycle(m, &data[..n], &payloads[..count], list);
    let consumed = next(s, answer);
    let told = match logged.answer {
        Ok(cycle) => cycle.consumed as u64 == number(s, consumed),
        Err(_) => true,
    };
    let events = logged.answer.map(|cycle| cycle.events);
    told && log_is(s, answer, next(s, consumed), events, &logged.events)
}
