// Writing, the mapping count and restoring, for C.
#![tactic(auto)]

ghost use Rattle.std.specs.Prelude.{◌≡◌};
ghost use Rattle.entry.specs.Table.{dict};
ghost use Rattle.pdo_validator.specs.Counting.{valid_of};
ghost use Rattle.restoring.specs.Restore.{restore_of};
ghost use Rattle.writing.specs.Writing.{write_of};
ghost use Rattle.c_answers.specs.Answers.{answer_number};
ghost use Rattle.c_storing.specs.Storing.{wrote_number, wrote_place, wrote_had, restored_number};

use c_answers::number_of;
use writing::{WriteFault, Wrote};

// The number of what a write comes to.
pub fn number_of_write(a: Result<Wrote, WriteFault>) -> u64
    ensures { result ≡ wrote_number a }
{
    match a {
        Ok(Wrote::Done) => 0,
        Ok(Wrote::RestoreRequested) => 19,
        Err(WriteFault::NoValue(_)) => 2,
        Err(WriteFault::Refused(r)) => answers::number(r),
    }
}

fn wrote(a: Result<Wrote, WriteFault>, place: &mut u64, had: &mut u64) -> u64
    ensures answer { result ≡ wrote_number a }
    ensures place { place.new ≡ wrote_place a place.old }
    ensures had { had.new ≡ wrote_had a had.old }
{
    if let Err(WriteFault::NoValue(f)) = a {
        c_answers::tell(f, place, had);
    }
    number_of_write(a)
}

pub fn loomfinch_write(
    objects: &mut [u64],
    slots: &[u64],
    words: &mut [u64],
    bytes: &mut [u8],
    store: &mut [u8],
    index: u16,
    sub_index: u8,
    type_number: u64,
    data: &[u8],
    place: &mut u64,
    had: &mut u64,
) -> u64
    ensures answer { result ≡ wrote_number (write_of (dict objects.old slots.now words.old bytes.old) store.old index sub_index type_number «data».now).answer }
    ensures objects { objects.new ≡ (write_of (dict objects.old slots.now words.old bytes.old) store.old index sub_index type_number «data».now).objects }
    ensures words { words.new ≡ (write_of (dict objects.old slots.now words.old bytes.old) store.old index sub_index type_number «data».now).words }
    ensures bytes { bytes.new ≡ (write_of (dict objects.old slots.now words.old bytes.old) store.old index sub_index type_number «data».now).bytes }
    ensures store { store.new ≡ (write_of (dict objects.old slots.now words.old bytes.old) store.old index sub_index type_number «data».now).store }
    ensures place { place.new ≡ wrote_place (write_of (dict objects.old slots.now words.old bytes.old) store.old index sub_index type_number «data».now).answer place.old }
    ensures had { had.new ≡ wrote_had (write_of (dict objects.old slots.now words.old bytes.old) store.old index sub_index type_number «data».now).answer had.old }
{
    let a = writing::write(
        objects,
        slots,
        words,
        bytes,
        store,
        index,
        sub_index,
        type_number,
        data,
    );
    wrote(a, place, had)
}

pub fn loomfinch_validate_pdo_mapping(
    objects: &[u64],
    slots: &[u64],
    words: &[u64],
    bytes: &[u8],
    index: u16,
    count: u8,
) -> u64
    ensures { result ≡ answer_number (valid_of (dict objects.now slots.now words.now bytes.now) index count) }
{
    number_of(pdo_validator::validate_pdo_mapping(objects, slots, words, bytes, index, count))
}

pub fn loomfinch_restore_power_on_values(
    objects: &[u64],
    slots: &mut [u64],
    words: &mut [u64],
    bytes: &mut [u8],
    store: &[u8],
    first: u16,
    last: u16,
) -> u64
    ensures answer { result ≡ restored_number (restore_of (dict objects.now slots.old words.old bytes.old) store.now first last).answer }
    ensures memory { dict objects.now slots.new words.new bytes.new ≡ (restore_of (dict objects.now slots.old words.old bytes.old) store.now first last).memory }
{
    number_of(restoring::restore_power_on_values(objects, slots, words, bytes, store, first, last))
}
