// Whether there is room for an object in the place of others, and the act where there is.
ghost use Rattle.std.specs.Prelude.{◌≡◌, true, cond, ◌+◌, ◌≤◌, length, Ok, Err};
ghost use Rattle.answers.specs.declared.Refusal.TheVariants.{Full};
ghost use Rattle.entry.specs.Judge.{well_formed};
ghost use Rattle.entry.specs.Table.{dict, number_of};
ghost use Rattle.given.specs.Given.{rooms_in, count_in, obj_in, Values};
ghost use Rattle.insertion.specs.Insert.{fits_in, memory_after};
ghost use Rattle.insertion.specs.Replace.{without, replaced};

use crate::act;
use answers::Refusal;
use given::Head;
use judge::Dictionary;

// Whether there is room for one object more, of u values and g bytes, once object i is gone, if it replaces that.
fn fits(d: &Dictionary, i: usize, replaces: bool, u: usize, g: usize) -> bool
    requires { (i + cond replaces 1 0 ≤ number_of d.now.objects) × (u ≤ 255) × (g ≤ 400000) }
    ensures { result ≡ fits_in (without i (cond replaces 1 0) d.now) u g }
{
    let gone = replaces as usize;
    let (v, b) = placing::before(d.objects, i);
    let (e, f) = placing::before(d.objects, i + gone);
    let n = entry::number_of(d.objects) as usize - gone;
    let m = entry::values_of(d.objects) as usize - e + v + u;
    let t = entry::used_of(d.objects) as usize - f + b + g;
    (n < 1024)
        & ((entry::row_end(n) <= d.objects.len())
            & ((m <= 6144)
                & ((entry::slot_place(m) <= d.slots.len())
                    & ((m <= d.words.len()) & ((t <= 32768) & (t <= d.bytes.len()))))))
}

// The object, of g bytes, goes in at place i, where it replaces the one there or moves it up, if there is room for it.
// By slices and the clause, as `replace_at` says.
pub fn put_in(
    objects: &mut [u64],
    slots: &mut [u64],
    words: &mut [u64],
    bytes: &mut [u8],
    i: usize,
    replaces: bool,
    head: Head,
    name: &[u8],
    vals: &[u64],
    encodings: &[u8],
    g: usize,
) -> Result<(), Refusal>
    requires bytes_value { well_formed (dict objects.old slots.old words.old bytes.old) ≡ true }
    requires i_bound { (i + cond replaces 1 0 ≤ number_of objects.old) × (count_in vals.now ≤ 255) × (g ≤ 400000) }
    requires values { Values vals.now encodings.now (count_in vals.now) × (head.default ≤ count_in vals.now) × (g ≡ length name.now + rooms_in vals.now (count_in vals.now) 0) }
    ensures answer { result ≡ cond (fits_in (without i (cond replaces 1 0) (dict objects.old slots.old words.old bytes.old)) (count_in vals.now) g) (Ok tt) (Err Full) }
    ensures memory { dict objects.new slots.new words.new bytes.new ≡ memory_after result (replaced i (cond replaces 1 0) (obj_in head name.now vals.now encodings.now) (dict objects.old slots.old words.old bytes.old)) (dict objects.old slots.old words.old bytes.old) }
{
    let u = vals.len() / 3;
    let d = Dictionary {
        objects,
        slots,
        words,
        bytes,
    };
    if !fits(&d, i, replaces, u, g) {
        return Err(Refusal::Full);
    }
    act::replace_at(
        objects, slots, words, bytes, i, replaces, head, name, vals, encodings, g,
    );
    Ok(())
}
