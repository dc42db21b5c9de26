// The dictionary's calls, for C.
#![tactic(auto)]

ghost use Rattle.std.specs.Prelude.{◌≡◌};
ghost use Rattle.entry.specs.Table.{dict};
ghost use Rattle.od.specs.New.{new_of};
ghost use Rattle.counter.specs.Counter.{counter_of};
ghost use Rattle.insertion.specs.Insert.{answer_of, memory_of};
ghost use Rattle.insertion.specs.Replace.{replace_answer_of, replace_memory_of};
ghost use Rattle.c_answers.specs.Answers.{lent, wrote, answer_number, told};
ghost use Rattle.c_dictionary.specs.Dictionary.{inserted_number, head_of, read_numbers, typed_told, named_told, node_numbers};

use c_answers::number_of;
use insertion::Head;

pub fn loomfinch_new(objects: &mut [u64], edition: u64) -> u64
    ensures answer { result ≡ answer_number (new_of edition objects.old).answer }
    ensures memory { objects.new ≡ (new_of edition objects.old).objects }
{
    number_of(od::new(objects, edition))
}

fn head_of(
    index: u16,
    kind: u64,
    access: u64,
    has_default: u64,
    low_type: u64,
    low: u64,
    high_type: u64,
    high: u64,
) -> Head
    ensures { result ≡ head_of index kind access has_default low_type low high_type high }
{
    Head {
        index,
        kind,
        access,
        default: has_default,
        low_type,
        low,
        high_type,
        high,
    }
}

pub fn loomfinch_insert(
    objects: &mut [u64],
    slots: &mut [u64],
    words: &mut [u64],
    bytes: &mut [u8],
    index: u16,
    kind: u64,
    access: u64,
    has_default: u64,
    low_type: u64,
    low: u64,
    high_type: u64,
    high: u64,
    name: &[u8],
    vals: &[u64],
    encodings: &[u8],
) -> u64
    ensures answer { result ≡ inserted_number (answer_of (head_of index kind access has_default low_type low high_type high) name.now vals.now encodings.now (dict objects.old slots.old words.old bytes.old)) }
    ensures memory { dict objects.new slots.new words.new bytes.new ≡ memory_of (head_of index kind access has_default low_type low high_type high) name.now vals.now encodings.now (dict objects.old slots.old words.old bytes.old) }
{
    let head = head_of(
        index,
        kind,
        access,
        has_default,
        low_type,
        low,
        high_type,
        high,
    );
    number_of(insertion::insert(objects, slots, words, bytes, head, name, vals, encodings))
}

pub fn loomfinch_replace(
    objects: &mut [u64],
    slots: &mut [u64],
    words: &mut [u64],
    bytes: &mut [u8],
    index: u16,
    kind: u64,
    access: u64,
    has_default: u64,
    low_type: u64,
    low: u64,
    high_type: u64,
    high: u64,
    name: &[u8],
    vals: &[u64],
    encodings: &[u8],
) -> u64
    ensures answer { result ≡ inserted_number (replace_answer_of (head_of index kind access has_default low_type low high_type high) name.now vals.now encodings.now (dict objects.old slots.old words.old bytes.old)) }
    ensures memory { dict objects.new slots.new words.new bytes.new ≡ replace_memory_of (head_of index kind access has_default low_type low high_type high) name.now vals.now encodings.now (dict objects.old slots.old words.old bytes.old) }
{
    let head = head_of(
        index,
        kind,
        access,
        has_default,
        low_type,
        low,
        high_type,
        high,
    );
    number_of(insertion::replace(objects, slots, words, bytes, head, name, vals, encodings))
}

#[tactic(auto, unfolding(crate::specs::Dictionary::read_numbers))]
pub fn loomfinch_read(
    objects: &[u64],
    slots: &[u64],
    words: &[u64],
    bytes: &[u8],
    index: u16,
    sub_index: u8,
    numbers: &mut [u64],
) -> u64
    ensures { lent result numbers.new ≡ read_numbers (dict objects.now slots.now words.now bytes.now) index sub_index numbers.old }
{
    match od::read(objects, slots, words, bytes, index, sub_index) {
        Ok(v) => c_answers::lend(&[v.value_type, v.word, v.start], numbers),
        Err(r) => answers::number(r),
    }
}

// The number of type t.
#[tactic(auto, unfolding(crate::specs::Dictionary::typed_told))]
fn typed(
    objects: &[u64],
    slots: &[u64],
    words: &[u64],
    bytes: &[u8],
    index: u16,
    sub_index: u8,
    t: u64,
    number: &mut u64,
) -> u64
    ensures { told result number.new ≡ typed_told t (dict objects.now slots.now words.now bytes.now) index sub_index number.old }
{
    let found = od::read_number(objects, slots, words, bytes, index, sub_index, t);
    c_answers::tell_number(found.map(|w| w as usize), number)
}

// The C interface has a call for each width, and one to insert beside one to replace.
pub fn loomfinch_read_u8(
    objects: &[u64],
    slots: &[u64],
    words: &[u64],
    bytes: &[u8],
    index: u16,
    sub_index: u8,
    number: &mut u64,
) -> u64
    ensures { told result number.new ≡ typed_told 5 (dict objects.now slots.now words.now bytes.now) index sub_index number.old }
{
    typed(objects, slots, words, bytes, index, sub_index, 5, number)
}

pub fn loomfinch_read_u16(
    objects: &[u64],
    slots: &[u64],
    words: &[u64],
    bytes: &[u8],
    index: u16,
    sub_index: u8,
    number: &mut u64,
) -> u64
    ensures { told result number.new ≡ typed_told 6 (dict objects.now slots.now words.now bytes.now) index sub_index number.old }
{
    typed(objects, slots, words, bytes, index, sub_index, 6, number)
}

pub fn loomfinch_read_u32(
    objects: &[u64],
    slots: &[u64],
    words: &[u64],
    bytes: &[u8],
    index: u16,
    sub_index: u8,
    number: &mut u64,
) -> u64
    ensures { told result number.new ≡ typed_told 7 (dict objects.now slots.now words.now bytes.now) index sub_index number.old }
{
    typed(objects, slots, words, bytes, index, sub_index, 7, number)
}

pub fn loomfinch_read_u64(
    objects: &[u64],
    slots: &[u64],
    words: &[u64],
    bytes: &[u8],
    index: u16,
    sub_index: u8,
    number: &mut u64,
) -> u64
    ensures { told result number.new ≡ typed_told 8 (dict objects.now slots.now words.now bytes.now) index sub_index number.old }
{
    typed(objects, slots, words, bytes, index, sub_index, 8, number)
}

#[tactic(auto, unfolding(crate::specs::Dictionary::named_told))]
pub fn loomfinch_find_by_name(
    objects: &[u64],
    slots: &[u64],
    words: &[u64],
    bytes: &[u8],
    name: &[u8],
    index: &mut u64,
) -> u64
    ensures { told result index.new ≡ named_told (dict objects.now slots.now words.now bytes.now) name.now index.old }
{
    let found = names::find_by_name(objects, slots, words, bytes, name);
    c_answers::tell_number(found.map(|x| x as usize), index)
}

#[tactic(auto, unfolding(crate::specs::Dictionary::node_numbers))]
pub fn loomfinch_get_configured_cns(
    objects: &[u64],
    slots: &[u64],
    words: &[u64],
    bytes: &[u8],
    out: &mut [u8],
    count: &mut u64,
) -> u64
    ensures { wrote result out.new count.new ≡ node_numbers (dict objects.now slots.now words.now bytes.now) out.old count.old }
{
    let found = nodes::get_configured_cns(objects, slots, words, bytes, out);
    c_answers::tell_number(found, count)
}

pub fn loomfinch_increment_counter(
    objects: &[u64],
    slots: &[u64],
    words: &mut [u64],
    bytes: &[u8],
    index: u16,
    sub_index: u8,
) -> u64
    ensures answer { result ≡ answer_number (counter_of (dict objects.now slots.now words.old bytes.now) index sub_index).answer }
    ensures memory { words.new ≡ (counter_of (dict objects.now slots.now words.old bytes.now) index sub_index).words }
{
    number_of(counter::increment_counter(objects, slots, words, bytes, index, sub_index))
}
