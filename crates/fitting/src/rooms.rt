// Whether all that would be put fits its room.
ghost use Rattle.std.specs.Prelude.{◌≡◌, not, ◌||◌, ◌<◌, leb};
ghost use Rattle.value.specs.Codec.{is_text};
ghost use Rattle.entry.specs.Table.{number_of, count_at};
ghost use Rattle.fitting.specs.Fit.{slot_in, chosen_at, fits_room, values_fit, restorable, rows_fit};

use crate::Choice;
use crate::choosing::choose;
use crate::looking::Image;
use entry::{Row, Slot};
use judge::Dictionary;

// A string of some length in a room.
fn text_fits(t: u64, len: u64, room: u64) -> bool
    ensures { result ≡ (not (is_text t) || leb len room) }
{
    let text = value::is_text(t);
    !text | (len <= room)
}

// Value k of row i.
fn value_fits(d: &Dictionary, stored: &mut Image, i: usize, k: usize) -> bool
    requires { (i < number_of d.now.objects) × (k < count_at d.now.objects i) }
    ensures fits { result ≡ fits_room d.now stored.old (slot_in d.now.objects i k) (chosen_at d.now stored.old i k) }
    ensures image { stored.new ≡ stored.old }
{
    let choice = choose(d, stored, i, k);
    let room = Slot(d.slots, Row(d.objects, i).first() as usize + k).room();
    match choice {
        Choice::Keep => true,
        Choice::Stored(a) => {
            let head = stored.head(a);
            text_fits(head.value_type, head.size as u64, room)
        }
        Choice::Default(q) => text_fits(Slot(d.slots, q).value_type(), d.words[q], room),
    }
}

// All values of row i.
fn values_fit(d: &Dictionary, stored: &mut Image, i: usize) -> bool
    requires { i < number_of d.now.objects }
    ensures fits { result ≡ values_fit d.now stored.old i (count_at d.now.objects i) 0 }
    ensures image { stored.new ≡ stored.old }
{
    let count = Row(d.objects, i).count() as usize;
    for k in 0..count {
        if !value_fits(d, stored, i, k) {
            return false;
        }
    }
    true
}

// Whether a restore touches the object: 1003h stays.
pub fn restorable(index: u64) -> bool
    ensures { result ≡ restorable index }
{
    index != 0x1003
}

pub fn rows_fit(d: &Dictionary, stored: &mut Image, first: u16, last: u16) -> bool
    ensures fits { result ≡ rows_fit d.now stored.old first last (number_of d.now.objects) 0 }
    ensures image { stored.new ≡ stored.old }
{
    let rows = image::rows_in(d.objects, first, last);
    for i in rows.start..rows.end {
        if restorable(Row(d.objects, i).index()) {
            if !values_fit(d, stored, i) {
                return false;
            }
        }
    }
    true
}
