// The four lent slices as one value, once they were judged.
ghost use Rattle.std.specs.Prelude.{◌≡◌, true, false, IfOk, IfErr};
ghost use Rattle.answers.specs.declared.Refusal.TheVariants.{Malformed};
ghost use Rattle.entry.specs.Table.{Dict, dict};
ghost use Rattle.entry.specs.Judge.{well_formed};

use crate::well_formed;
use answers::Refusal;
use std::marker::Model;

// Four slices that are a dictionary. A function that takes one need not judge it again.
#[derive(Drop)]
pub struct Dictionary<'a> {
    pub objects: &'a [u64],
    pub slots: &'a [u64],
    pub words: &'a [u64],
    pub bytes: &'a [u8],
}

impl<'a> Model for Dictionary<'a> {
    ghost Value = { Dict };

    ghost view = { λ d. dict d.objects.now d.slots.now d.words.now d.bytes.now };

    ghost invariant = { λ d. well_formed (dict d.objects.now d.slots.now d.words.now d.bytes.now) ≡ true };
}

impl<'a> Dictionary<'a> {
    // The slices as a dictionary, where they are one. That they are is said apart, for callers that open no field.
    pub fn judged(
        objects: &'a [u64],
        slots: &'a [u64],
        words: &'a [u64],
        bytes: &'a [u8],
    ) -> Result<Self, Refusal>
        ensures ok { IfOk result (λ d. d ≡ dict objects.now slots.now words.now bytes.now) }
        ensures judged { IfOk result (λ d. well_formed d ≡ true) }
        ensures err { IfErr result (λ r. (r ≡ Malformed) × (well_formed (dict objects.now slots.now words.now bytes.now) ≡ false)) }
    {
        if !well_formed(objects, slots, words, bytes) {
            return Err(Refusal::Malformed);
        }
        Ok(Dictionary {
            objects,
            slots,
            words,
            bytes,
        })
    }
}
