// A dictionary that a payload is put into.
ghost use Rattle.std.specs.Prelude.{◌≡◌, true};
ghost use Rattle.lists.specs.Numbers.{Bytes};
ghost use Rattle.entry.specs.Table.{dict};
ghost use Rattle.entry.specs.Judge.{well_formed};

use judge::Dictionary;

// The four lent slices, once they were judged: what is put in keeps them a dictionary. Ghost fields say so, and no `Model` as of
// `Dictionary`: of a value with a view, who lent it the slices does not learn what it left in them (tried). That its bytes are bytes
// is said, since a proof knows it of a slice that is a parameter and not of one that is a field.
#[derive(Drop)]
pub struct Receiving<'a> {
    pub objects: &'a [u64],
    pub slots: &'a [u64],
    pub words: &'a mut [u64],
    pub bytes: &'a mut [u8],
    pub ghost judged: { well_formed (dict objects.now slots.now words.now bytes.now) ≡ true },
    pub ghost sane: { Bytes bytes.now },
}

impl<'a> Receiving<'a> {
    ghost use Rattle.pdo_step.specs.Receiving.{dict_of};

    // The dictionary as it is now, to look into.
    pub fn shown<'b>(&'b self) -> Dictionary<'b>
        ensures { result ≡ dict_of self.now }
    {
        Dictionary {
            objects: self.objects,
            slots: self.slots,
            words: &*self.words,
            bytes: &*self.bytes,
        }
    }
}
