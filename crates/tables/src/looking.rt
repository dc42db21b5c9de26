// The lines that look rows up in a dictionary of their own (crate halving).
use halving::Spread;
use tokens::{index_at, next, number};

fn spread_at(s: &[u8], at: usize) -> Spread {
    let first = next(s, at);
    Spread {
        count: index_at(s, at),
        first: index_at(s, first),
        width: index_at(s, next(s, first)),
    }
}

// Behind a line's spread.
fn behind(s: &[u8], at: usize) -> usize {
    next(s, next(s, next(s, at)))
}

pub fn lookup_line(s: &[u8], at: usize) -> bool {
    let index = behind(s, at);
    let answer = next(s, index);
    let expected = number(s, answer);
    match halving::looked_up(spread_at(s, at), index_at(s, index)) {
        Ok(row) => expected == 0 && row == number(s, next(s, answer)),
        Err(r) => expected == answers::number(r),
    }
}

pub fn sweep_line(s: &[u8], at: usize) -> bool {
    let found = behind(s, at);
    let missing = next(s, found);
    let swept = halving::sweep(spread_at(s, at));
    swept.found == number(s, found)
        && swept.missing == number(s, missing)
        && swept.sum == number(s, next(s, missing))
}
