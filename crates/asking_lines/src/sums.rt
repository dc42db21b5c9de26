// The sum over the memory.
use memory::Memory;
use tokens::sum_of;

// Over the dictionary.
pub fn sum(m: &Memory) -> u64 {
    let rows = sum_of(&m.slots, sum_of(&m.objects, 0));
    sum_of(&m.bytes, sum_of(&m.words, rows))
}

// Over the dictionary and the store.
pub fn sum_with_store(m: &Memory) -> u64 {
    sum_of(&m.store, sum(m))
}
