// Consuming a payload: its channel, its version, its words.
ghost use Rattle.std.specs.Prelude.{◌≡◌, ℕ, ◌<◌, ◌≤◌, length, Some};
ghost use Rattle.entry.specs.Table.{dict};
ghost use Rattle.entry.specs.Put.{contents};
ghost use Rattle.pdo_step.specs.Receiving.{dict_of, held_in, Same};
ghost use Rattle.pdo_run.specs.Run.{framed, logged, finished};
ghost use Rattle.pdo_handler.specs.Consume.{on_channel, consumed_by, received_by, after_consume, consume_of};

use answers::Refusal;
use event::packed;
use pdo_channel::{first_match, right_version, version_of};
use pdo_run::{Payload, note, run_list};
use pdo_step::Receiving;

// A payload that is ready, of a sender whose channel is known, or that has none; the number of events, which the log begins with.
pub fn consume_on_channel(
    d: &mut Receiving,
    payload: &Payload,
    channel: Option<u8>,
    log: &mut [u64],
) -> usize
    requires { 254 ≤ length log.old }
    ensures same { Same d.old d.new }
    ensures left { logged (held_in d.new) log.new result ≡ finished (on_channel (framed d.old payload.now) (held_in d.old) payload.now.version channel) log.old 0 }
{
    let Some(i) = channel else {
        return 0;
    };
    let expected = version_of(&d.shown(), i);
    if right_version(expected, payload.version) {
        return run_list(d, payload, 0x1600 + i as u16, log);
    }
    pdo_step::mark(d, 0x1C80, payload.sender);
    note(log, 0, packed(payload.number, 1, 0, 0, 0, 0))
}

// A payload that is ready; the number of events, which the log begins with.
fn consume_ready(d: &mut Receiving, payload: &Payload, log: &mut [u64]) -> usize
    requires { 254 ≤ length log.old }
    ensures same { Same d.old d.new }
    ensures left { logged (held_in d.new) log.new result ≡ finished (consumed_by (framed d.old payload.now) (held_in d.old) payload.now.version) log.old 0 }
{
    let channel = first_match(&d.shown(), payload.sender);
    consume_on_channel(d, payload, channel, log)
}

// A payload, ready or not.
pub fn receive(d: &mut Receiving, payload: &Payload, ready: bool, log: &mut [u64]) -> usize
    requires { 254 ≤ length log.old }
    ensures same { Same d.old d.new }
    ensures left { logged (held_in d.new) log.new result ≡ finished (received_by (framed d.old payload.now) (held_in d.old) payload.now.version ready) log.old 0 }
{
    if !ready {
        return 0;
    }
    consume_ready(d, payload, log)
}

// Consumes a payload into a dictionary that was judged. The room stands beside the log, whose own length is not it: it is judged in the
// core, after Malformed and before PayloadTooLong (docs/DECISIONS.md, 39).
pub fn consume_logged_judged(
    d: &mut Receiving,
    payload: &[u8],
    sender: u8,
    version: u8,
    ready: bool,
    room: usize,
    log: &mut [u64],
) -> Result<usize, Refusal>
    requires { 254 ≤ room → 254 ≤ length log.old }
    ensures same { Same d.old d.new }
    ensures left { after_consume result (held_in d.new) log.new ≡ consume_of (dict_of d.old) payload.now sender version ready room log.old }
{
    if room < 254 {
        return Err(Refusal::NoEventRoom);
    }
    if 1490 < payload.len() {
        return Err(Refusal::PayloadTooLong);
    }
    let payload = Payload {
        bytes: payload,
        sender,
        version,
        number: 0,
    };
    Ok(receive(d, &payload, ready, log))
}

// Consumes a payload, where the event list has room for so many records; each event is a number of the log, from the first on.
pub fn consume_logged(
    objects: &[u64],
    slots: &[u64],
    words: &mut [u64],
    bytes: &mut [u8],
    payload: &[u8],
    sender: u8,
    version: u8,
    ready: bool,
    room: usize,
    log: &mut [u64],
) -> Result<usize, Refusal>
    requires { 254 ≤ room → 254 ≤ length log.old }
    ensures { after_consume result (contents words.new bytes.new) log.new ≡ consume_of (dict objects.now slots.now words.old bytes.old) payload.now sender version ready room log.old }
{
    if !judge::well_formed(objects, slots, words, bytes) {
        return Err(Refusal::Malformed);
    }
    let mut d = Receiving {
        objects,
        slots,
        words,
        bytes,
    };
    consume_logged_judged(&mut d, payload, sender, version, ready, room, log)
}
