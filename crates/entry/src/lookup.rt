// Looking an object and a value up. These take the slice and ask for `Rows`: as a struct that is made of it, it would be made at 25
// functions, for nine clauses. A dictionary, which 20 of them have, asks more than the others can give while they change values.
ghost use Rattle.std.specs.Prelude.{◌≡◌, ◌<◌};
ghost use Rattle.entry.specs.Table.{number_of};
ghost use Rattle.entry.specs.Find.{Rows, Lower, find_row, sub_at, place_of};

use crate::columns::Row;
use crate::header::number_of;
use crate::{Missing, Place};

// The first row whose index is not below x: the rows rise, so each look leaves half of them. Halved by hand, for speed: `partition_point`
// over `as_chunks` proves, and as measured took 75 ns for 67 at random keys, 10.8 for 9.1 at four keys in turn.
pub fn lower(objects: &[u64], x: u64) -> usize
    requires { Rows objects.now }
    ensures { Lower objects.now x result }
{
    let mut low = 0;
    let mut high = number_of(objects) as usize;
    while low < high {
        let middle = (low + high) / 2;
        if Row(objects, middle).index() < x {
            low = middle + 1;
        } else {
            high = middle;
        }
    }
    low
}

// The row of an index.
pub fn find(objects: &[u64], index: u16) -> Option<usize>
    requires { Rows objects.now }
    ensures { result ≡ find_row objects.now index }
{
    let x = index as u64;
    let r = lower(objects, x);
    if number_of(objects) as usize <= r {
        return None;
    }
    if Row(objects, r).index() != x {
        return None;
    }
    Some(r)
}

// What a sub-index names in row i.
pub fn sub_at(objects: &[u64], i: usize, sub: u8) -> Option<Place>
    requires rows { Rows objects.now }
    requires i_bound { i < number_of objects.now }
    ensures { result ≡ sub_at objects.now i sub }
{
    let row = Row(objects, i);
    let kind = row.kind();
    let first = row.first() as usize;
    if kind == 0 {
        if sub == 0 {
            return Some(Place::Value(first));
        }
        return None;
    }
    let count = row.count();
    if sub == 0 {
        return Some(Place::Count(row.list_count()));
    }
    if sub as u64 <= count {
        return Some(Place::Value(first + (sub - 1) as usize));
    }
    None
}

// What an index and a sub-index name.
pub fn locate(objects: &[u64], index: u16, sub: u8) -> Result<Place, Missing>
    requires { Rows objects.now }
    ensures { result ≡ place_of objects.now index sub }
{
    let Some(i) = find(objects, index) else {
        return Err(Missing::NoObject);
    };
    sub_at(objects, i, sub).ok_or(Missing::NoSub)
}
