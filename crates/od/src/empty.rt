// An empty dictionary.
ghost use Rattle.std.specs.Prelude.{◌≡◌};
ghost use Rattle.od.specs.New.{made, new_of};

use answers::Refusal;

// Lays the header of an empty dictionary of an edition, 1 or 2; the other slices may hold anything.
pub fn new(objects: &mut [u64], edition: u64) -> Result<(), Refusal>
    ensures { made result objects.new ≡ new_of edition objects.old }
{
    if (edition != 1) & (edition != 2) {
        return Err(Refusal::Malformed);
    }
    let header = entry::row_place(0);
    if objects.len() < header {
        return Err(Refusal::Full);
    }
    rows::lay_header(objects, edition);
    Ok(())
}
