// The mapping count: whether the first n elements of a mapping may be used.
#![tactic(auto)]

ghost use Rattle.std.specs.Prelude.{◌≡◌, ◌<◌, Some};
ghost use Rattle.entry.specs.Table.{dict, number_of, sends};
ghost use Rattle.entry.specs.Find.{Elements};
ghost use Rattle.pdo_validator.specs.Counting.{limit_of, ends_from, within_limit, count_on, count_of, valid_of};

use answers::Refusal;
use entry::{Place, Row, Slot};
use judge::Dictionary;
use mapping::PdoMappingEntry;

fn is_sent(index: u16) -> bool
    ensures { result ≡ sends index }
{
    (0x1A00 <= index) & (index <= 0x1AFF)
}

// The most bytes that a payload may have.
fn limit(d: &Dictionary, index: u16) -> u64
    ensures { result ≡ limit_of d.now index }
{
    let sub = if is_sent(index) { 1 } else { 2 };
    match entry::locate(d.objects, 0x1F98, sub) {
        Ok(Place::Value(p)) if Slot(d.slots, p).value_type() == 6 => d.words[p],
        _ => 1490,
    }
}

// The largest end of n mapping words, of which the first lies at slot `first`.
pub fn ends(slots: &[u64], words: &[u64], n: usize, first: usize) -> Option<usize>
    requires { Elements slots.now words.now n first }
    ensures { result ≡ ends_from slots.now words.now n first 0 }
{
    let mut end = 0;
    for k in 0..n {
        if Slot(slots, first + k).value_type() != 8 {
            return None;
        }
        end = end.max(PdoMappingEntry::from_u64(words[first + k]).end());
    }
    Some(end)
}

fn fits(limit: u64, ends: Option<usize>) -> Result<(), Refusal>
    ensures { result ≡ within_limit limit ends }
{
    let end = ends.ok_or(Refusal::MissingEntries)?;
    if end as u64 <= limit {
        Ok(())
    } else {
        Err(Refusal::PdoMapOverrun)
    }
}

// Of the mapping in row i.
fn count_in(d: &Dictionary, index: u16, n: u8, i: usize) -> Result<(), Refusal>
    requires { i < number_of d.now.objects }
    ensures { result ≡ count_on d.now index n (Some i) }
{
    let row = Row(d.objects, i);
    if row.kind() != 1 {
        return Err(Refusal::ObjectNotFound);
    }
    if row.count() < n as u64 {
        return Err(Refusal::MissingEntries);
    }
    let first = row.first() as usize;
    let found = ends(d.slots, d.words, n as usize, first);
    fits(limit(d, index), found)
}

// Of a dictionary that was judged.
pub fn judge_count(d: &Dictionary, index: u16, n: u8) -> Result<(), Refusal>
    ensures { result ≡ count_of d.now index n }
{
    if (n == 0) | !entry::is_mapping(index as u64) {
        return Ok(());
    }
    let i = entry::find(d.objects, index).ok_or(Refusal::ObjectNotFound)?;
    count_in(d, index, n, i)
}

// May the first n elements of the mapping at an index be used? For an index of no mapping, and for n = 0: `Ok`.
#[tactic(auto, unfolding(crate::specs::Counting::valid_of))]
pub fn validate_pdo_mapping(
    objects: &[u64],
    slots: &[u64],
    words: &[u64],
    bytes: &[u8],
    index: u16,
    n: u8,
) -> Result<(), Refusal>
    ensures { result ≡ valid_of (dict objects.now slots.now words.now bytes.now) index n }
{
    let d = Dictionary::judged(objects, slots, words, bytes)?;
    judge_count(&d, index, n)
}
