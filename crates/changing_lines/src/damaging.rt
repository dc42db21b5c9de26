// One cell of the memory changed.
use memory::Memory;

fn set<T: Copy>(xs: &mut [T], place: usize, x: T) -> bool {
    if place < xs.len() {
        xs[place] = x;
        return true;
    }
    false
}

// Changes one element of slice 0 to 3, or of the store; false where there is no such element.
pub fn damage(m: &mut Memory, slice: u64, place: usize, value: u64) -> bool {
    let byte = (value % 256) as u8;
    match slice {
        0 => set(&mut m.objects, place, value),
        1 => set(&mut m.slots, place, value),
        2 => set(&mut m.words, place, value),
        3 => set(&mut m.bytes, place, byte),
        _ => set(&mut m.store, place, byte),
    }
}
