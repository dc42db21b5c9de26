// The header of the lent dictionary, and where its rows and slots lie. Its columns take the slice: as methods of a struct, as a row's are,
// they would make one in 20 functions, half of which read a single column, for eight clauses on the length.
ghost use Rattle.std.specs.Prelude.{◌≡◌, ◌≤◌, length};
ghost use Rattle.entry.specs.Table.{number_of, values_of, used_of, edition_of, row_place, row_end, slot_place};

// The header: how many objects, values (defaults counted) and bytes there are.
pub fn number_of(objects: &[u64]) -> u64
    requires { 12 ≤ length objects.now }
    ensures { result ≡ number_of objects.now }
{
    objects[0]
}

pub fn values_of(objects: &[u64]) -> u64
    requires { 12 ≤ length objects.now }
    ensures { result ≡ values_of objects.now }
{
    objects[1]
}

pub fn used_of(objects: &[u64]) -> u64
    requires { 12 ≤ length objects.now }
    ensures { result ≡ used_of objects.now }
{
    objects[2]
}

// The edition of the mapping rules.
pub fn edition_of(objects: &[u64]) -> u64
    requires { 12 ≤ length objects.now }
    ensures { result ≡ edition_of objects.now }
{
    objects[3]
}

// Where row i begins and ends, and where slot p begins.
pub fn row_place(i: usize) -> usize
    requires { i ≤ 65536 }
    ensures { result ≡ row_place i }
{
    12 * i + 12
}

pub fn row_end(i: usize) -> usize
    requires { i ≤ 65536 }
    ensures { result ≡ row_end i }
{
    12 * i + 24
}

pub fn slot_place(p: usize) -> usize
    requires { p ≤ 65536 }
    ensures { result ≡ slot_place p }
{
    3 * p
}
