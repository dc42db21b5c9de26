// Counters.
#![tactic(auto)]

ghost use Rattle.std.specs.Prelude.{◌≡◌, true};
ghost use Rattle.entry.specs.Table.{dict};
ghost use Rattle.entry.specs.Judge.{well_formed};
ghost use Rattle.counter.specs.Counter.{counter_at, after_increment, counter_of};

use answers::Refusal;
use entry::{Place, Row, Slot};
use judge::Dictionary;

// The value that is a counter: a U32 that is a Variable or a Record's element.
fn counter_at(d: &Dictionary, index: u16, sub: u8) -> Option<usize>
    ensures { result ≡ counter_at d.now index sub }
{
    let i = entry::find(d.objects, index)?;
    if Row(d.objects, i).kind() == 1 {
        return None;
    }
    let Some(Place::Value(p)) = entry::sub_at(d.objects, i, sub) else {
        return None;
    };
    if Slot(d.slots, p).value_type() == 7 {
        Some(p)
    } else {
        None
    }
}

// Adds 1 to a counter of a dictionary that was judged. By slices and the clause: no other function is lent the words alone to change, and
// a struct for one would say no more.
pub fn increment_counter_judged(
    objects: &[u64],
    slots: &[u64],
    words: &mut [u64],
    bytes: &[u8],
    index: u16,
    sub: u8,
) -> Result<(), Refusal>
    requires { well_formed (dict objects.now slots.now words.old bytes.now) ≡ true }
    ensures { after_increment result words.new ≡ counter_of (dict objects.now slots.now words.old bytes.now) index sub }
{
    let d = Dictionary {
        objects,
        slots,
        words: &*words,
        bytes,
    };
    let Some(p) = counter_at(&d, index, sub) else {
        return Ok(());
    };
    let value = words[p] as u32;
    words[p] = value.wrapping_add(1) as u64;
    Ok(())
}

// Adds 1 to a counter, modulo 2^32; elsewhere nothing happens.
pub fn increment_counter(
    objects: &[u64],
    slots: &[u64],
    words: &mut [u64],
    bytes: &[u8],
    index: u16,
    sub: u8,
) -> Result<(), Refusal>
    ensures { after_increment result words.new ≡ counter_of (dict objects.now slots.now words.old bytes.now) index sub }
{
    if !judge::well_formed(objects, slots, words, bytes) {
        return Err(Refusal::Malformed);
    }
    increment_counter_judged(objects, slots, words, bytes, index, sub)
}
