// One payload of the cycle after another.
ghost use Rattle.std.specs.Prelude.{◌≡◌, true, ◌≤◌, length};
ghost use Rattle.entry.specs.Table.{dict};
ghost use Rattle.entry.specs.Put.{contents};
ghost use Rattle.pdo_step.specs.Receiving.{dict_of, held_in, Same};
ghost use Rattle.pdo_run.specs.Run.{logged, finished};
ghost use Rattle.pdo_cycle.specs.Payloads.{Lies, payloads_in, are_shaped, are_placed, are_short};
ghost use Rattle.pdo_cycle.specs.Cycle.{delivery, received_at, cycle_from, ended, after_cycle, cycle_done, cycle_of};

use crate::Cycle;
use crate::payloads::{all_placed, all_short, numbers_of, shaped};
use answers::Refusal;
use pdo_run::Payload;
use pdo_step::Receiving;

// Payload i; the number of its events, which the log begins with.
fn receive_at(
    d: &mut Receiving,
    delivered: &[u8],
    payloads: &[u64],
    i: usize,
    log: &mut [u64],
) -> usize
    requires { Lies (length delivered.now) payloads.now i × (254 ≤ length log.old) }
    ensures same { Same d.old d.new }
    ensures left { logged (held_in d.new) log.new result ≡ finished (received_at (delivery d.old.objects.now d.old.slots.now delivered.now payloads.now) (held_in d.old) i) log.old 0 }
{
    let [start, length, sender, version, ready] = numbers_of(payloads, i);
    let payload = Payload {
        bytes: &delivered[start as usize..(start + length) as usize],
        sender: sender as u8,
        version: version as u8,
        number: i as u64,
    };
    pdo_handler::receive(d, &payload, ready != 0, log)
}

// All payloads, until one lacks room for its events.
fn receive_all(
    d: &mut Receiving,
    delivered: &[u8],
    payloads: &[u64],
    log: &mut [u64],
) -> Result<Cycle, Refusal>
    requires { (are_shaped payloads.now ≡ true) × (are_placed (length delivered.now) payloads.now ≡ true) × (are_short payloads.now ≡ true) }
    ensures same { Same d.old d.new }
    ensures left { after_cycle result (held_in d.new) log.new ≡ cycle_done (ended (cycle_from (delivery d.old.objects.now d.old.slots.now delivered.now payloads.now) (payloads_in payloads.now) 0 (held_in d.old) (length log.old)) log.old 0 0) }
{
    let count = payloads.len() / 5;
    let mut n = 0;
    for i in 0..count {
        if log.len() - n < 254 {
            return Ok(Cycle {
                consumed: i,
                events: n,
            });
        }
        n += receive_at(d, delivered, payloads, i, &mut log[n..]);
    }
    Ok(Cycle {
        consumed: count,
        events: n,
    })
}

// Consumes the payloads of a cycle into a dictionary that was judged.
pub fn consume_cycle_judged(
    d: &mut Receiving,
    delivered: &[u8],
    payloads: &[u64],
    log: &mut [u64],
) -> Result<Cycle, Refusal>
    ensures same { Same d.old d.new }
    ensures left { after_cycle result (held_in d.new) log.new ≡ cycle_of (dict_of d.old) delivered.now payloads.now log.old }
{
    let (each, _) = payloads.as_chunks::<5>();
    if !(shaped(payloads) & all_placed(delivered.len() as u64, each)) {
        return Err(Refusal::BadValue);
    }
    if !all_short(each) {
        return Err(Refusal::PayloadTooLong);
    }
    receive_all(d, delivered, payloads, log)
}

// Consumes the payloads of a cycle; each event is a number of the log, from the first on, and says its payload.
pub fn consume_cycle(
    objects: &[u64],
    slots: &[u64],
    words: &mut [u64],
    bytes: &mut [u8],
    delivered: &[u8],
    payloads: &[u64],
    log: &mut [u64],
) -> Result<Cycle, Refusal>
    ensures { after_cycle result (contents words.new bytes.new) log.new ≡ cycle_of (dict objects.now slots.now words.old bytes.old) delivered.now payloads.now log.old }
{
    if !judge::well_formed(objects, slots, words, bytes) {
        return Err(Refusal::Malformed);
    }
    let mut d = Receiving {
        objects,
        slots,
        words,
        bytes,
    };
    consume_cycle_judged(&mut d, delivered, payloads, log)
}
