// Rows and slots that are written, put in and taken out.
#![tactic(auto)]

ghost use Rattle.std.specs.Prelude.{◌≡◌, [], ℕ, ◌+◌, ◌-◌, ◌*◌, ◌^◌, ◌≤◌, ◌<◌, length, get_or};
ghost use Rattle.std.proofs.Math.Seq.{slice};
ghost use Rattle.lists.specs.Lists.{over, grown, spliced};
ghost use Rattle.entry.specs.Model.{header};
ghost use Rattle.entry.specs.Table.{values_of, used_of, row_place, row_end, first_place, name_place, slot_place, slot_end, start_place};
ghost use Rattle.rows.specs.Rows.{row_of, kept_in, rows_grown, rows_fallen, starts_grown, starts_fallen, totalled, slotted};

use entry::{Extra, used_of, values_of};

// The header of a dictionary without objects, of an edition.
pub fn lay_header(objects: &mut [u64], edition: u64)
    requires { row_place 0 ≤ length objects.old }
    ensures { objects.new ≡ over objects.old 0 (header edition []) }
{
    let words = [0, 0, 0, edition, 0, 0, 0, 0, 0, 0, 0, 0];
    lists::lay(objects, 0, &words);
}

// The header's totals.
pub fn set_totals(objects: &mut [u64], number: u64, values: u64, used: u64)
    requires { 12 ≤ length objects.old }
    ensures { objects.new ≡ totalled number values used objects.old }
{
    objects[0] = number;
    objects[1] = values;
    objects[2] = used;
}

// A row's words.
pub fn row_of(
    index: u64,
    kind: u64,
    access: u64,
    count: u64,
    first: u64,
    name: u64,
    len: u64,
    default: u64,
    extra: Extra,
) -> [u64; 12]
    ensures { result ≡ row_of index kind access count first name len default extra }
{
    [
        index,
        kind,
        access,
        count,
        first,
        name,
        len,
        default,
        extra.kept,
        extra.ranged,
        extra.low,
        extra.high,
    ]
}

// The kept count of row i.
pub fn set_kept(objects: &mut [u64], i: usize, n: u64)
    requires { (i < 1024) × (row_end i ≤ length objects.old) }
    ensures { objects.new ≡ kept_in i n objects.old }
{
    objects[12 * i + 20] = n;
}

// Slot p.
pub fn set_slot(slots: &mut [u64], p: usize, kind: u64, start: u64, room: u64)
    requires { (p < 6144) × (slot_end p ≤ length slots.old) }
    ensures { slots.new ≡ slotted p kind start room slots.old }
{
    slots[3 * p] = kind;
    slots[3 * p + 1] = start;
    slots[3 * p + 2] = room;
}

// The row at place i of n, with u values and g bytes before the objects behind it.
pub fn insert_row(objects: &mut [u64], i: usize, n: usize, row: &[u64; 12], u: u64, g: u64)
    requires i_le_n { (i ≤ n) × (n < 1024) × (row_end n ≤ length objects.old) }
    requires by_index { (j : ℕ) → j < n - i → get_or objects.old (first_place i + 12 * j) 0 + u < 2 ^ 64 }
    requires by_index_2 { (j : ℕ) → j < n - i → get_or (grown 12 u (n - i) (first_place i) objects.old) (name_place i + 12 * j) 0 + g < 2 ^ 64 }
    ensures { objects.new ≡ spliced (row_place i) (row_place n) row.now (rows_grown i (n - i) u g objects.old) }
{
    lists::grow(objects, 12 * i + 16, 12, n - i, u);
    lists::grow(objects, 12 * i + 17, 12, n - i, g);
    lists::move_up(objects, 12 * i + 12, 12 * n + 12, 12);
    lists::lay(objects, 12 * i + 12, row);
}

// The rows behind row i of n move down, with u values and g bytes less before them; the header's totals fall.
pub fn remove_row(objects: &mut [u64], i: usize, n: usize, u: u64, g: u64)
    requires { (i < n) × (n ≤ 1024) × (row_place n ≤ length objects.old) }
    ensures { objects.new ≡ totalled (n - 1) (values_of objects.old - u) (used_of objects.old - g) (rows_fallen i (n - (i + 1)) u g (over objects.old (row_place i) (slice (row_end i) (row_place n) objects.old))) }
{
    let m = values_of(objects).saturating_sub(u);
    let used = used_of(objects).saturating_sub(g);
    lists::move_down(objects, 12 * i + 12, 12 * i + 24, 12 * n + 12);
    lists::fall(objects, 12 * i + 16, 12, n - (i + 1), u);
    lists::fall(objects, 12 * i + 17, 12, n - (i + 1), g);
    set_totals(objects, (n - 1) as u64, m, used);
}

// Room for u slots at slot v of m; the rooms behind start g bytes further on.
pub fn open_slots(slots: &mut [u64], v: usize, m: usize, u: usize, g: u64)
    requires u_bound { (u ≤ 255) × (v ≤ m) × (m + u ≤ 6144) × (slot_place (m + u) ≤ length slots.old) }
    requires by_index { (j : ℕ) → j < m - v → get_or slots.old (start_place v + 3 * j) 0 + g < 2 ^ 64 }
    ensures { slots.new ≡ over (starts_grown v (m - v) g slots.old) (slot_place v + slot_place u) (slice (slot_place v) (slot_place m) (starts_grown v (m - v) g slots.old)) }
{
    lists::grow(slots, 3 * v + 1, 3, m - v, g);
    lists::move_up(slots, 3 * v, 3 * m, 3 * u);
}

// The slots from slot e up to slot m move down to slot v; their rooms start g bytes earlier.
pub fn remove_slots(slots: &mut [u64], v: usize, e: usize, m: usize, g: u64)
    requires { (v ≤ e) × (e ≤ m) × (m ≤ 6144) × (slot_place m ≤ length slots.old) }
    ensures { slots.new ≡ starts_fallen v (m - e) g (over slots.old (slot_place v) (slice (slot_place e) (slot_place m) slots.old)) }
{
    lists::move_down(slots, 3 * v, 3 * e, 3 * m);
    lists::fall(slots, 3 * v + 1, 3, m - e, g);
}
