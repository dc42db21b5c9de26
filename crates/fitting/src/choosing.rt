// What each value gets.
ghost use Rattle.std.specs.Prelude.{◌≡◌, ◌<◌, None};
ghost use Rattle.entry.specs.Table.{number_of, index_at, count_at};
ghost use Rattle.fitting.specs.Fit.{key_at, choice_of, chosen_at};

use crate::Choice;
use crate::looking::Image;
use entry::{Row, Slot};
use judge::Dictionary;

// The key of value k of a row.
fn key_at(row: &Row, k: usize) -> u64
    requires { (index_at row.now.objects row.now.i < 65536) × (k < 254) }
    ensures { result ≡ key_at row.now.objects row.now.i k }
{
    256 * row.index() + commands::sub_in(row.kind(), k)
}

// Without a record: the default, or nothing.
fn default_for(d: &Dictionary, i: usize, k: usize) -> Choice
    requires { (i < number_of d.now.objects) × (k < count_at d.now.objects i) }
    ensures { result ≡ choice_of d.now i k None }
{
    let row = Row(d.objects, i);
    if row.default() != 1 {
        return Choice::Keep;
    }
    let first = row.first() as usize;
    let default = first + row.count() as usize;
    if row.kind() == 0 {
        return Choice::Default(default);
    }
    let t = Slot(d.slots, first + k).value_type();
    if Slot(d.slots, default).value_type() == t {
        return Choice::Default(default);
    }
    Choice::Keep
}

// The record of its key wins.
pub fn choose(d: &Dictionary, stored: &mut Image, i: usize, k: usize) -> Choice
    requires { (i < number_of d.now.objects) × (k < count_at d.now.objects i) }
    ensures choice { result ≡ chosen_at d.now stored.old i k }
    ensures image { stored.new ≡ stored.old }
{
    match stored.look_up(key_at(&Row(d.objects, i), k)) {
        Some(a) => Choice::Stored(a),
        None => default_for(d, i, k),
    }
}
