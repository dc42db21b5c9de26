// A stored value's encoding.
ghost use Rattle.std.specs.Prelude.{◌≡◌};
ghost use Rattle.lists.specs.Lists.{over};
ghost use Rattle.entry.specs.Encode.{encoding_in, Lays};

use crate::columns::Slot;

// Lays the encoding of value p over `out` from `at` on.
pub fn lay_encoding(slots: &[u64], words: &[u64], bytes: &[u8], p: usize, out: &mut [u8], at: usize)
    requires { Lays slots.now words.now bytes.now p out.old at }
    ensures { out.new ≡ over out.old at (encoding_in slots.now words.now bytes.now p) }
{
    let slot = Slot(slots, p);
    let t = slot.value_type();
    let w = words[p];
    if value::is_text(t) {
        let start = slot.start() as usize;
        let end = start + w as usize;
        lists::lay(out, at, &bytes[start..end]);
    } else {
        let n = value::size_of(t);
        lists::put_number(out, at, n, w);
    }
}
