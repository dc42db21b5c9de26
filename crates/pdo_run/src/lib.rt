// The gathered words of a channel, in turn.
#![tactic(auto)]

mod payload;

ghost use Rattle.std.specs.Prelude.{◌≡◌, true, false, ◌+◌, ◌<◌, ◌≤◌, length, take, drop, Some};
ghost use Rattle.entry.specs.Table.{edition_of, number_of, values_of};
ghost use Rattle.entry.specs.Find.{find_row};
ghost use Rattle.pdo_run.specs.Run.{code_of, turn, turn_of, framed, act_of, run_from, run_in, run_on, logged, finished, noted_log, noted_count};
ghost use Rattle.pdo_step.specs.Outcomes.{reach, outcome_of};
ghost use Rattle.pdo_step.specs.Receiving.{held_in, Same};
ghost use Rattle.pdo_step.specs.Effects.{caused_by, is_short};
ghost use Rattle.value.specs.Fault.{first_told, second_told};
ghost use Rattle.event.specs.declared.Event.TheVariants.{PayloadShort};

use entry::{Row, Slot};
use event::packed;
pub use payload::Payload;
use pdo_step::{Outcome, Receiving};
use value::CodecFault;

// What an outcome leaves to do: its event's number, or 0; the sender's bit in 1C81h; to stop the run.
// No Option for the number: the definition `turn_of`, and `note`'s clauses, say no event by 0.
#[derive(Clone, Copy)]
pub struct Turn {
    pub event: u64,
    pub bit: bool,
    pub stops: bool,
}

fn goes_on(event: u64) -> Turn
    ensures { result ≡ turn event false false }
{
    Turn {
        event,
        bit: false,
        stops: false,
    }
}

fn ends(event: u64, bit: bool) -> Turn
    ensures { result ≡ turn event bit true }
{
    Turn {
        event,
        bit,
        stops: true,
    }
}

// The event of a field that does not decode.
fn fault_event(number: u64, k: u64, f: CodecFault) -> u64
    requires { (number < 1024) × (k < 256) × (first_told f + second_told f < 8192) }
    ensures { result ≡ code_of number k (Some (PayloadShort (caused_by f))) }
{
    match f {
        CodecFault::Value { needed, had } => packed(number, 3, k, 0, needed, had),
        CodecFault::Text { at } => packed(number, 4, k, 0, at, 0),
        CodecFault::Odd => packed(number, 5, k, 0, 0, 0),
    }
}

// Whether a field that does not decode sets the sender's bit in 1C81h: in edition 2, where bytes are missing.
fn is_short(edition: u64, f: CodecFault) -> bool
    ensures { result ≡ is_short edition f }
{
    match f {
        CodecFault::Value { .. } => edition == 2,
        CodecFault::Text { .. } | CodecFault::Odd => false,
    }
}

// The turn of element k.
fn turn_of(edition: u64, number: u64, k: u64, o: Outcome) -> Turn
    requires { (number < 1024) × (k < 256) × (reach o < 8192) }
    ensures { result ≡ turn_of edition number k o }
{
    match o {
        Outcome::Misaligned | Outcome::NoTarget | Outcome::Count | Outcome::Stored { .. } => {
            goes_on(0)
        }
        Outcome::Short => ends(packed(number, 2, k, 0, 0, 0), true),
        Outcome::Server { index, start, len } => goes_on(packed(number, 6, k, index, start, len)),
        Outcome::Client { index, start, len } => goes_on(packed(number, 7, k, index, start, len)),
        Outcome::CountRefused => goes_on(packed(number, 8, k, 0, 0, 0)),
        Outcome::Undecodable(f) => ends(fault_event(number, k, f), is_short(edition, f)),
        Outcome::TooLong => goes_on(packed(number, 9, k, 0, 0, 0)),
    }
}

pub fn note(log: &mut [u64], n: usize, e: u64) -> usize
    requires { n < length log.old }
    ensures count { result ≡ noted_count n e }
    ensures log { log.new ≡ noted_log log.old n e }
{
    if e == 0 {
        return n;
    }
    log[n] = e;
    n + 1
}

// One word, element k: decided, and done.
fn act_on(d: &mut Receiving, payload: &Payload, k: u64, word: u64) -> Turn
    requires { k < 256 }
    ensures same { Same d.old d.new }
    ensures turn { result ≡ turn_of (edition_of d.old.objects.now) payload.now.number k (outcome_of d.old.objects.now d.old.slots.now payload.now.bytes.now word) }
    ensures held { held_in d.new ≡ act_of (framed d.old payload.now) (held_in d.old) (outcome_of d.old.objects.now d.old.slots.now payload.now.bytes.now word) }
{
    let o = pdo_step::step(d, payload.bytes, word);
    let t = turn_of(entry::edition_of(d.objects), payload.number, k, o);
    if t.bit {
        pdo_step::mark(d, 0x1C81, payload.sender);
    }
    t
}

// The words of a list in turn, until one stops; the number of events, which the log begins with.
fn run(d: &mut Receiving, payload: &Payload, first: usize, list: &[u64], log: &mut [u64]) -> usize
    requires { (first + length list.now ≤ values_of d.old.objects.now) × (length list.now ≤ 254) × (length list.now ≤ length log.old) }
    ensures same { Same d.old d.new }
    ensures left { logged (held_in d.new) log.new result ≡ finished (run_from (framed d.old payload.now) first list.now 0 (held_in d.old)) log.old 0 }
{
    let mut n = 0;
    for (j, &word) in list.iter().enumerate() {
        if Slot(d.slots, first + j).value_type() != 8 {
            continue;
        }
        let t = act_on(d, payload, j as u64 + 1, word);
        n = note(log, n, t.event);
        if t.stops {
            return n;
        }
    }
    n
}

// The n words from the first on, with zeros behind them.
fn gather<const N: usize>(d: &Receiving, first: usize, n: usize) -> [u64; N]
    requires { (n ≤ N) × (first + n ≤ length d.now.words.now) }
    ensures { (length result ≡ N) × (take n result ≡ take n (drop first d.now.words.now)) }
{
    let words = &*d.words;
    let mut list = [0u64; N];
    lists::lay(&mut list, 0, &words[first..first + n]);
    list
}

// The words of the list in row r: all are gathered before the first is acted on.
fn run_row(d: &mut Receiving, payload: &Payload, r: usize, log: &mut [u64]) -> usize
    requires { (r < number_of d.old.objects.now) × (254 ≤ length log.old) }
    ensures same { Same d.old d.new }
    ensures left { logged (held_in d.new) log.new result ≡ finished (run_in (framed d.old payload.now) (held_in d.old) r) log.old 0 }
{
    let row = Row(d.objects, r);
    let first = row.first() as usize;
    let n = row.list_count() as usize;
    // An array is made and handed back as a whole, and 2 KB of zeros cost more than a short list.
    if n <= 16 {
        let few = gather::<16>(d, first, n);
        return run(d, payload, first, &few[..n], log);
    }
    let list = gather::<254>(d, first, n);
    run(d, payload, first, &list[..n], log)
}

// The list of a channel, or none.
pub fn run_list(d: &mut Receiving, payload: &Payload, index: u16, log: &mut [u64]) -> usize
    requires { 254 ≤ length log.old }
    ensures same { Same d.old d.new }
    ensures left { logged (held_in d.new) log.new result ≡ finished (run_on (framed d.old payload.now) (held_in d.old) (find_row d.old.objects.now index)) log.old 0 }
{
    let Some(r) = entry::find(d.objects, index) else {
        return 0;
    };
    if Row(d.objects, r).kind() == 0 {
        return 0;
    }
    run_row(d, payload, r, log)
}
