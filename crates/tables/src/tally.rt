// How many lines of the tables were run, and how many differ.
ghost use Rattle.std.specs.Prelude.{◌<◌, length};

use crate::history::take_turn;
use memory::Memory;
use tokens::next;

#[derive(Clone, Copy)]
pub struct State {
    pub memory: Memory,
    pub run: u64,
    pub differ: u64,
}

// Before the first table.
pub fn fresh() -> State {
    State {
        memory: memory::zeros(),
        run: 0,
        differ: 0,
    }
}

// A table that can't be read counts as a line that differs.
pub fn missing(state: &mut State) {
    state.run = state.run.wrapping_add(1);
    state.differ = state.differ.wrapping_add(1);
}

// What stands behind the first line.
fn behind_line(s: &[u8]) -> &[u8]
    ensures { 0 < length s.now → length result.now < length s.now }
{
    match s.iter().position(|b| *b == b'\n') {
        Some(end) => &s[end + 1..],
        None => &[],
    }
}

// Does a line of this letter ask for an answer? Damage and comments don't.
fn asks(kind: u8) -> bool {
    !matches!(kind, b'D' | b'#')
}

// Runs the lines of a table on the memory that the tables before left. A line that lacks a token reads on in the next one, so each is given
// the whole rest.
pub fn run(table: &[u8], state: &mut State) {
    let mut rest = table;
    while let Some(kind) = rest.first() {
        let right = take_turn(*kind, rest, next(rest, 0), &mut state.memory);
        state.run = state.run.wrapping_add(u64::from(asks(*kind)));
        state.differ = state.differ.wrapping_add(u64::from(!right));
        rest = behind_line(rest);
    }
}
