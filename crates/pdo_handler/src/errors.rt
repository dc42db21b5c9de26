// The error objects 1C80h and 1C81h.
ghost use Rattle.std.specs.Prelude.{◌≡◌, true};
ghost use Rattle.entry.specs.Table.{dict};
ghost use Rattle.entry.specs.Judge.{well_formed};
ghost use Rattle.pdo_handler.specs.Errors.{after_update, update_of};

use answers::Refusal;

// Sets the bit in a dictionary that was judged, by slices and the clause, as `set_bit` does.
pub fn update_pdo_error_object_judged(
    objects: &[u64],
    slots: &[u64],
    words: &[u64],
    bytes: &mut [u8],
    index: u16,
    node: u8,
) -> Result<(), Refusal>
    requires { well_formed (dict objects.now slots.now words.now bytes.old) ≡ true }
    ensures { after_update result bytes.new ≡ update_of (dict objects.now slots.now words.now bytes.old) index node }
{
    pdo_step::set_bit(objects, slots, words, bytes, index, node);
    Ok(())
}

// Sets the bit of a node in the error object at an index; where that has none, nothing happens.
pub fn update_pdo_error_object(
    objects: &[u64],
    slots: &[u64],
    words: &[u64],
    bytes: &mut [u8],
    index: u16,
    node: u8,
) -> Result<(), Refusal>
    ensures { after_update result bytes.new ≡ update_of (dict objects.now slots.now words.now bytes.old) index node }
{
    if !judge::well_formed(objects, slots, words, bytes) {
        return Err(Refusal::Malformed);
    }
    update_pdo_error_object_judged(objects, slots, words, bytes, index, node)
}
