// Closing the gap of an object: what lies behind it moves down. It cannot fail.
ghost use Rattle.std.specs.Prelude.{◌≡◌, ◌<◌};
ghost use Rattle.entry.specs.Judge.{Long};
ghost use Rattle.entry.specs.Table.{number_of, dict, model_of, Lies};
ghost use Rattle.insertion.specs.Replace.{without};

// Object i goes: everything behind it moves down.
pub fn remove_at(
    objects: &mut [u64],
    slots: &mut [u64],
    words: &mut [u64],
    bytes: &mut [u8],
    i: usize,
)
    requires lies { Lies (model_of (dict objects.old slots.old words.old bytes.old)) (dict objects.old slots.old words.old bytes.old) }
    requires long { Long (dict objects.old slots.old words.old bytes.old) × (i < number_of objects.old) }
    ensures { dict objects.new slots.new words.new bytes.new ≡ without i 1 (dict objects.old slots.old words.old bytes.old) }
{
    let n = entry::number_of(objects) as usize;
    let m = entry::values_of(objects) as usize;
    let used = entry::used_of(objects) as usize;
    let (v, b) = placing::before(objects, i);
    let (e, f) = placing::before(objects, i + 1);
    let u = (e - v) as u64;
    let g = (f - b) as u64;
    lists::move_down(words, v, e, m);
    rows::remove_slots(slots, v, e, m, g);
    lists::move_down(bytes, b, f, used);
    rows::remove_row(objects, i, n, u, g);
}
