// Saving: everything is measured before the first byte is laid.
ghost use Rattle.std.specs.Prelude.{◌≡◌};
ghost use Rattle.commands.specs.Save.{after_save, save_of};

use crate::laying::lay;
use crate::offering::{Size, measure};
use answers::Refusal;
use judge::Dictionary;

// Lays the image of what the list offers over the store's start.
#[tactic(auto, using(crate::proofs::SaveLaws::full_of_records, crate::proofs::SaveLaws::full_of_bytes, crate::proofs::SaveLaws::full_of_length))]
pub fn save(d: &Dictionary, list: u8, store: &mut [u8]) -> Result<(), Refusal>
    ensures { after_save result store.new ≡ save_of d.now store.old list }
{
    let (first, last) = image::range_of(list).into_inner();
    let Size {
        records: r,
        bytes: b,
    } = measure(d, first, last);
    if 2048 < r || 16384 < b || store.len() < 2 + 8 * r + b {
        return Err(Refusal::StoreFull);
    }
    lists::put_number(store, 0, 2, r as u64);
    lay(d, first, last, store, 2 + 8 * r);
    Ok(())
}
