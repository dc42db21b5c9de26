// Payloads and error bits, for C: an event is a number.
#![tactic(auto)]

ghost use Rattle.std.specs.Prelude.{◌≡◌, not, eqb, length};
ghost use Rattle.entry.specs.Table.{dict};
ghost use Rattle.entry.specs.Put.{contents};
ghost use Rattle.pdo_handler.specs.Consume.{consume_of};
ghost use Rattle.pdo_handler.specs.Errors.{update_of};
ghost use Rattle.pdo_cycle.specs.Cycle.{cycle_of};
ghost use Rattle.c_answers.specs.Answers.{answer_number};
ghost use Rattle.c_receiving.specs.Receiving.{heard, consume_numbers, counted, cycle_counted, cycle_numbers};

use answers::Refusal;
use c_answers::number_of;
use pdo_cycle::Cycle;

pub fn loomfinch_consume_pdo_payload(
    objects: &[u64],
    slots: &[u64],
    words: &mut [u64],
    bytes: &mut [u8],
    payload: &[u8],
    sender: u8,
    version: u8,
    ready: u64,
    events: &mut [u64],
    count: &mut u64,
) -> u64
    ensures { heard result (contents words.new bytes.new) events.new 0 count.new ≡ consume_numbers (consume_of (dict objects.now slots.now words.old bytes.old) payload.now sender version (not (eqb ready 0)) (length events.old) events.old) count.old }
{
    let room = events.len();
    let a = pdo_handler::consume_logged(
        objects,
        slots,
        words,
        bytes,
        payload,
        sender,
        version,
        ready != 0,
        room,
        events,
    );
    c_answers::tell_number(a, count)
}

fn cycled(a: Result<Cycle, Refusal>, consumed: &mut u64, count: &mut u64) -> u64
    ensures { counted result consumed.new count.new ≡ cycle_counted a consumed.old count.old }
{
    match a {
        Ok(
            Cycle {
                consumed: payloads,
                events,
            },
        ) => {
            *consumed = payloads as u64;
            *count = events as u64;
            0
        }
        Err(r) => answers::number(r),
    }
}

pub fn loomfinch_consume_cycle(
    objects: &[u64],
    slots: &[u64],
    words: &mut [u64],
    bytes: &mut [u8],
    delivered: &[u8],
    payloads: &[u64],
    events: &mut [u64],
    consumed: &mut u64,
    count: &mut u64,
) -> u64
    ensures { heard result (contents words.new bytes.new) events.new consumed.new count.new ≡ cycle_numbers (cycle_of (dict objects.now slots.now words.old bytes.old) delivered.now payloads.now events.old) consumed.old count.old }
{
    let a = pdo_cycle::consume_cycle(objects, slots, words, bytes, delivered, payloads, events);
    cycled(a, consumed, count)
}

pub fn loomfinch_update_pdo_error_object(
    objects: &[u64],
    slots: &[u64],
    words: &[u64],
    bytes: &mut [u8],
    index: u16,
    node: u8,
) -> u64
    ensures answer { result ≡ answer_number (update_of (dict objects.now slots.now words.now bytes.old) index node).answer }
    ensures bytes { bytes.new ≡ (update_of (dict objects.now slots.now words.now bytes.old) index node).bytes }
{
    number_of(pdo_handler::update_pdo_error_object(objects, slots, words, bytes, index, node))
}
