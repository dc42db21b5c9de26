// The public call, and what it does once the dictionary was judged.
ghost use Rattle.std.specs.Prelude.{◌≡◌};
ghost use Rattle.entry.specs.Table.{dict};
ghost use Rattle.restoring.specs.Restore.{after_restore, restore_of};
ghost use Rattle.restoring.specs.Restoring.{dict_of, Same};

use crate::Restoring;
use crate::acting::restore_rows;
use answers::Refusal;
use fitting::{Image, rows_fit};

// What `restore_power_on_values` does with a dictionary that was judged.
pub fn restore_judged(d: &mut Restoring, store: &[u8], first: u16, last: u16) -> Result<(), Refusal>
    ensures same { Same d.old d.new }
    ensures left { after_restore result (dict_of d.new) ≡ restore_of (dict_of d.old) store.now first last }
{
    let mut stored = Image::judged(store);
    if !rows_fit(&d.shown(), &mut stored, first, last) {
        return Err(Refusal::TooLong);
    }
    restore_rows(d, &mut stored, first, last);
    Ok(())
}

// Restores the objects from index `first` to index `last`. A refusal changes nothing.
pub fn restore_power_on_values(
    objects: &[u64],
    slots: &mut [u64],
    words: &mut [u64],
    bytes: &mut [u8],
    store: &[u8],
    first: u16,
    last: u16,
) -> Result<(), Refusal>
    ensures { after_restore result (dict objects.now slots.new words.new bytes.new) ≡ restore_of (dict objects.now slots.old words.old bytes.old) store.now first last }
{
    if !judge::well_formed(objects, slots, words, bytes) {
        return Err(Refusal::Malformed);
    }
    let mut d = Restoring {
        objects,
        slots,
        words,
        bytes,
    };
    restore_judged(&mut d, store, first, last)
}
