// Lines that write, save, restore and set an error bit. A line says how many bytes of the store it lends.
ghost use Rattle.std.specs.Prelude.{◌≤◌};

use answers::Refusal;
use c_storing::number_of_write;
use codec_lines::tells;
use loomfinch::{WriteFault, Wrote};
use memory::Memory;
use tokens::{ROOM, bytes, has_next, index_at, next, number, sub_at};

// The store has 1,000 bytes.
fn size_at(s: &[u8], at: usize) -> usize
    ensures { result ≤ 1000 }
{
    (number(s, at) % 1001) as usize
}

// Are the numbers behind the line's answer what a write says beside its own?
fn is_told(a: Result<Wrote, WriteFault>, s: &[u8], answer: usize) -> bool {
    match a {
        Err(WriteFault::NoValue(f)) => tells(f, s, answer),
        _ => !has_next(s, answer),
    }
}

pub fn write_line(s: &[u8], at: usize, m: &mut Memory) -> bool {
    let index = next(s, at);
    let sub = next(s, index);
    let kind = next(s, sub);
    let data_at = next(s, kind);
    let answer = next(s, data_at);
    let mut data = [0; ROOM];
    let n = bytes(s, data_at, &mut data);
    let a = m.write(
        size_at(s, at),
        index_at(s, index),
        sub_at(s, sub),
        number(s, kind),
        &data[..n],
    );
    number_of_write(a) == number(s, answer) && is_told(a, s, answer)
}

pub fn restore_line(s: &[u8], at: usize, m: &mut Memory) -> Result<(), Refusal> {
    let first = next(s, at);
    let last = next(s, first);
    m.restore_power_on_values(size_at(s, at), index_at(s, first), index_at(s, last))
}

pub fn bit_line(s: &[u8], at: usize, m: &mut Memory) -> Result<(), Refusal> {
    m.update_pdo_error_object(index_at(s, at), sub_at(s, next(s, at)))
}
