// The act of a write.
ghost use Rattle.std.specs.Prelude.{◌≡◌, true};
ghost use Rattle.entry.specs.Table.{dict};
ghost use Rattle.entry.specs.Judge.{well_formed};
ghost use Rattle.writing.specs.Writing.{after_write, write_of};

use crate::{Act, WriteFault, Wrote};
use answers::Refusal;
use judge::Dictionary;

// What `write` does with a dictionary that was judged. By slices and the clause: no other function is lent just these to change, and a
// struct for one would say no more.
#[tactic(auto, unfolding(crate::specs::Writing::write_of, crate::specs::Writing::write_act_of))]
pub fn write_judged(
    objects: &mut [u64],
    slots: &[u64],
    words: &mut [u64],
    bytes: &mut [u8],
    store: &mut [u8],
    index: u16,
    sub: u8,
    t: u64,
    data: &[u8],
) -> Result<Wrote, WriteFault>
    requires { well_formed (dict objects.old slots.now words.old bytes.old) ≡ true }
    ensures { after_write result objects.new words.new bytes.new store.new ≡ write_of (dict objects.old slots.now words.old bytes.old) store.old index sub t «data».now }
{
    let size = store.len();
    let d = Dictionary {
        objects: &*objects,
        slots,
        words: &*words,
        bytes: &*bytes,
    };
    match crate::judging::judge_write(&d, size, index, sub, t, data)? {
        Act::Put(p) => entry::put_value(slots, words, bytes, p, data),
        Act::Accepted => {}
        Act::Keep(i, n) => rows::set_kept(objects, i, n as u64),
        Act::Save => commands::save(&d, sub, store).map_err(WriteFault::Refused)?,
        Act::Restore => return Ok(Wrote::RestoreRequested),
    }
    Ok(Wrote::Done)
}

// Writes a value, given as its type and its encoding; at 1010h saves and at 1011h asks for a restore. A refusal changes nothing.
#[tactic(auto, unfolding(crate::specs::Writing::write_of))]
pub fn write(
    objects: &mut [u64],
    slots: &[u64],
    words: &mut [u64],
    bytes: &mut [u8],
    store: &mut [u8],
    index: u16,
    sub: u8,
    t: u64,
    data: &[u8],
) -> Result<Wrote, WriteFault>
    ensures { after_write result objects.new words.new bytes.new store.new ≡ write_of (dict objects.old slots.now words.old bytes.old) store.old index sub t «data».now }
{
    if !judge::well_formed(objects, slots, words, bytes) {
        return Err(WriteFault::Refused(Refusal::Malformed));
    }
    write_judged(objects, slots, words, bytes, store, index, sub, t, data)
}
