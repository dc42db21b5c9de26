// A mapping word's act.
ghost use Rattle.std.specs.Prelude.{◌≡◌};
ghost use Rattle.pdo_step.specs.Outcomes.{outcome_of};
ghost use Rattle.pdo_step.specs.Steps.{applied};
ghost use Rattle.pdo_step.specs.Receiving.{held_in, Same};

use crate::deciding::decide;
use crate::{Outcome, Receiving};

// Decides a word and does what was decided.
pub fn step(d: &mut Receiving, payload: &[u8], word: u64) -> Outcome
    ensures outcome { result ≡ outcome_of d.old.objects.now d.old.slots.now payload.now word }
    ensures same { Same d.old d.new }
    ensures held { held_in d.new ≡ applied d.old.slots.now payload.now (held_in d.old) result }
{
    let o = decide(d.objects, d.slots, payload, word);
    let Outcome::Stored { p, start, len } = o else {
        return o;
    };
    let field = &payload[start..start + len];
    entry::put_value(d.slots, d.words, d.bytes, p, field);
    o
}
