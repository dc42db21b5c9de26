// A mapping word read against the dictionary, in one place: for the step, the check and its explanation.
#![tactic(auto)]

ghost use Rattle.std.specs.Prelude.{◌≡◌};
ghost use Rattle.entry.specs.Find.{Rows};
ghost use Rattle.aim.specs.Aims.{aim_of, class_at, class_of};

use entry::{Missing, Place};
use mapping::{Field, PdoMappingEntry};

// What a word says, its field, and what there is at its index and sub-index.
#[derive(Clone, Copy)]
pub struct Aim {
    pub entry: PdoMappingEntry,
    pub field: Option<Field>,
    pub place: Result<Place, Missing>,
}

// What that makes of the word: not whole bytes, a hand-off, no target, a list's count, or a field and the slot of its value. Start and
// length stand in each case, and not as a `Field`, since the uses take them apart.
#[derive(Clone, Copy)]
pub enum Class {
    Misaligned,
    Server { start: usize, len: usize },
    Client { start: usize, len: usize },
    NoTarget,
    Count { start: usize, len: usize },
    Value { start: usize, len: usize, p: usize },
}

pub fn aim_of(objects: &[u64], word: u64) -> Aim
    requires { Rows objects.now }
    ensures { result ≡ aim_of objects.now word }
{
    let e = PdoMappingEntry::from_u64(word);
    let field = e.field();
    let place = entry::locate(objects, e.index, e.sub_index);
    Aim {
        entry: e,
        field,
        place,
    }
}

fn at_place(start: usize, len: usize, place: Result<Place, Missing>) -> Class
    ensures { result ≡ class_at start len place }
{
    match place {
        Err(_) => Class::NoTarget,
        Ok(Place::Count(_)) => Class::Count { start, len },
        Ok(Place::Value(p)) => Class::Value { start, len, p },
    }
}

pub fn classify(a: Aim) -> Class
    ensures { result ≡ class_of a }
{
    let Some(field) = a.field else {
        return Class::Misaligned;
    };
    let start = field.start;
    let len = field.length;
    match a.entry.index {
        0x1200..=0x127F => Class::Server { start, len },
        0x1280..=0x12FF => Class::Client { start, len },
        _ => at_place(start, len, a.place),
    }
}
