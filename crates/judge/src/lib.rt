// Whether four lent slices are a dictionary: one pass over the rows, with running totals.
#![tactic(auto)]

mod dictionary;

ghost use Rattle.std.specs.Prelude.{◌≡◌, true, false, ◌&&◌, ◌+◌, ◌-◌, ◌≤◌, ◌<◌, eqb, leb, length, take, drop, get_or};
ghost use Rattle.text.specs.Machine.{judge};
ghost use Rattle.value.specs.Codec.{is_text, takes, text_word};
ghost use Rattle.entry.specs.Table.{number_of, values_of, used_of, row_end, slot_place, slot_end, count_at, default_at, name_len_at, type_at, start_at, room_at, dict};
ghost use Rattle.entry.specs.Rules.{is_good, val_ok, tight, head_ok, range_ok, extra_ok};
ghost use Rattle.entry.specs.Judge.{reserved, slots_from, row_ok, row_fits, rows_from, header_ok, well_formed, Long};

pub use dictionary::Dictionary;
use entry::{Extra, Row, Slot, number_of, row_place, slot_place, used_of, values_of};

// Whether bytes are text, which is mostly short.
pub fn is_good(s: &[u8]) -> bool
    ensures { result ≡ is_good (judge s.now) }
{
    match text::part_ok(s) {
        Ok(()) => true,
        Err(_) => false,
    }
}

// A text or bytes of type t over their current length.
fn text_ok(t: u64, s: &[u8]) -> bool
    ensures { result ≡ takes (text_word t s.now) }
{
    if t == 11 {
        return is_good(s);
    }
    let odd = s.len() % 2 == 1;
    !((t == 13) & odd)
}

// A value's word, and a text or bytes, in a room that is no longer than a room may be.
fn val_ok(t: u64, w: u64, room: u64, s: &[u8], start: usize) -> bool
    requires w_in_bounds { w ≤ room → is_text t ≡ true → start + w ≤ length s.now }
    requires room_bound { room ≤ 1490 }
    ensures { result ≡ val_ok t w room (drop start s.now) }
{
    if 20 < t {
        return false;
    }
    if value::is_text(t) {
        if room < w {
            return false;
        }
        let end = start + w as usize;
        return text_ok(t, &s[start..end]);
    }
    value::fits(t, w)
}

// A default's room: just its bytes.
fn tight(t: u64, w: u64, room: u64) -> bool
    ensures { result ≡ tight t w room }
{
    if value::is_text(t) {
        room == w
    } else {
        room == 0
    }
}

// Whether the numbers of a row or of a given object keep the rules.
pub fn head_ok(index: u64, kind: u64, access: u64, count: u64, flag: u64, len: u64) -> bool
    ensures { result ≡ head_ok index kind access count flag len }
{
    (index < 65536)
        & ((kind < 3)
            & ((access < 8)
                & ((count <= 254) & ((!(kind == 0) | (count == 1)) & ((flag <= 1) & (len <= 32))))))
}

// The rest of the header.
fn reserved(objects: &[u64]) -> bool
    requires { 12 ≤ length objects.now }
    ensures { result ≡ reserved objects.now }
{
    let edition = objects[3];
    ((edition == 1) | (edition == 2))
        & ((objects[4] == 0)
            & ((objects[5] == 0)
                & ((objects[6] == 0)
                    & ((objects[7] == 0)
                        & ((objects[8] == 0)
                            & ((objects[9] == 0) & ((objects[10] == 0) & (objects[11] == 0))))))))
}

// Whether two words are a range of an integer type, or none, of type 0.
pub fn range_ok(t: u64, low: u64, high: u64) -> bool
    ensures { result ≡ range_ok t low high }
{
    if t == 0 {
        return (low == 0) & (high == 0);
    }
    if 8 < t {
        return false;
    }
    if !value::fits(t, low) {
        return false;
    }
    if !value::fits(t, high) {
        return false;
    }
    value::is_ordered(t, low, high)
}

// Whether what a row has beside its head keeps the rules, where the object has so many elements.
fn extra_ok(count: u64, extra: Extra) -> bool
    ensures { result ≡ extra_ok count extra }
{
    (extra.kept <= count) & range_ok(extra.ranged, extra.low, extra.high)
}

// A slot that is not the default's: its room lies from b on, within the bytes that are used, and its value is right.
// A sum is compared, not a difference: the walk needs it as well. It has no overflow, since the room is judged before.
fn slot_ok(slot: &Slot, w: u64, bytes: &[u8], used: u64, b: usize) -> bool
    requires { (b ≤ used) × (used ≤ length bytes.now) × (used ≤ 32768) }
    ensures { result ≡ (eqb (start_at slot.now.slots slot.now.p) b && (leb (room_at slot.now.slots slot.now.p) (used - b) && val_ok (type_at slot.now.slots slot.now.p) w (room_at slot.now.slots slot.now.p) (drop b bytes.now))) }
{
    let room = slot.room();
    let start = slot.start();
    if start != b as u64 {
        return false;
    }
    if 1490 < room {
        return false;
    }
    if used < b as u64 + room {
        return false;
    }
    let t = slot.value_type();
    val_ok(t, w, room, bytes, b)
}

// The slots of one object. Only the last of them can be a default's, so that is judged behind the loop, which then counts nothing.
fn walk_slots(
    objects: &[u64],
    slots: &[u64],
    words: &[u64],
    bytes: &[u8],
    elements: u64,
    from: usize,
    k: usize,
    start: usize,
) -> Option<usize>
    requires k_bound { (from + k ≤ 6144) × (slot_place (from + k) ≤ length slots.now) × (from + k ≤ length words.now) × (12 ≤ length objects.now) × (start ≤ used_of objects.now) × (used_of objects.now ≤ length bytes.now) × (used_of objects.now ≤ 32768) }
    requires k_bound_2 { k ≤ elements + 1 }
    ensures { result ≡ slots_from (dict objects.now slots.now words.now bytes.now) elements k from start }
{
    let used = used_of(objects);
    let end = from + k;
    let mut b = start;
    for p in from..end {
        let slot = Slot(slots, p);
        if !slot_ok(&slot, words[p], bytes, used, b) {
            return None;
        }
        b += slot.room() as usize;
    }
    if elements < k as u64 {
        let q = end - 1;
        let last = Slot(slots, q);
        if !tight(last.value_type(), words[q], last.room()) {
            return None;
        }
    }
    Some(b)
}

fn row_ok(row: &Row, v: usize, b: usize, low: u64) -> bool
    ensures { result ≡ row_ok row.now.objects row.now.i v b low }
{
    let index = row.index();
    let count = row.count();
    let head = head_ok(
        index,
        row.kind(),
        row.access(),
        count,
        row.default(),
        row.name_len(),
    );
    let first = row.first();
    let name = row.name();
    (low <= index)
        & (head & ((first == v as u64) & ((name == b as u64) & extra_ok(count, row.extra()))))
}

fn row_fits(row: &Row, bytes: &[u8], v: usize, b: usize) -> bool
    requires i_bound { (v ≤ values_of row.now.objects) × (b ≤ used_of row.now.objects) × (used_of row.now.objects ≤ length bytes.now) }
    requires i_bound_2 { (count_at row.now.objects row.now.i ≤ 254) × (default_at row.now.objects row.now.i ≤ 1) × (name_len_at row.now.objects row.now.i ≤ 32) × (values_of row.now.objects ≤ 6144) × (used_of row.now.objects ≤ 32768) }
    ensures { result ≡ row_fits row.now.objects bytes.now row.now.i v b }
{
    let used = row.count() + row.default();
    let len = row.name_len();
    if values_of(row.0) < v as u64 + used {
        return false;
    }
    if used_of(row.0) < b as u64 + len {
        return false;
    }
    let end = b + len as usize;
    is_good(&bytes[b..end])
}

fn walk_rows(objects: &[u64], slots: &[u64], words: &[u64], bytes: &[u8]) -> Option<(usize, usize)>
    requires { Long (dict objects.now slots.now words.now bytes.now) }
    ensures { result ≡ rows_from (dict objects.now slots.now words.now bytes.now) (number_of objects.now) 0 0 0 0 }
{
    let n = number_of(objects) as usize;
    let mut v = 0;
    let mut b = 0;
    let mut low = 0;
    for i in 0..n {
        let row = Row(objects, i);
        if !row_ok(&row, v, b, low) {
            return None;
        }
        if !row_fits(&row, bytes, v, b) {
            return None;
        }
        let count = row.count();
        let used = count as usize + row.default() as usize;
        let len = row.name_len() as usize;
        let index = row.index();
        let Some(e) = walk_slots(objects, slots, words, bytes, count, v, used, b + len) else {
            return None;
        };
        v += used;
        b = e;
        low = index + 1;
    }
    Some((v, b))
}

fn header_ok(objects: &[u64], slots: &[u64], words: &[u64], bytes: &[u8]) -> bool
    ensures { result ≡ header_ok (dict objects.now slots.now words.now bytes.now) }
{
    if objects.len() < 12 {
        return false;
    }
    let n = number_of(objects) as usize;
    let m = values_of(objects) as usize;
    let b = used_of(objects) as usize;
    if 1024 < n {
        return false;
    }
    if objects.len() < row_place(n) {
        return false;
    }
    if 6144 < m {
        return false;
    }
    (slot_place(m) <= slots.len())
        & ((m <= words.len()) & ((b <= 32768) & ((b <= bytes.len()) & reserved(objects))))
}

// Whether the four slices are a dictionary.
pub fn well_formed(objects: &[u64], slots: &[u64], words: &[u64], bytes: &[u8]) -> bool
    ensures { result ≡ well_formed (dict objects.now slots.now words.now bytes.now) }
{
    if !header_ok(objects, slots, words, bytes) {
        return false;
    }
    let m = values_of(objects) as usize;
    let used = used_of(objects) as usize;
    let Some((v, b)) = walk_rows(objects, slots, words, bytes) else {
        return false;
    };
    (v == m) & (b == used)
}
