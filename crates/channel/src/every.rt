// Every channel that has a record, after one judgement of the dictionary.
ghost use Rattle.std.specs.Prelude.{◌≡◌, [], ◌∷◌, ◌+◌, ◌≤◌, length};
ghost use Rattle.lists.specs.Lists.{over};
ghost use Rattle.entry.specs.Table.{dict};
ghost use Rattle.channel.specs.All.{lines_from, laid_lines, laid_on, after_check_all, check_all_of};
ghost use Rattle.channel.specs.Numbers.{answer_number, element_of};

use crate::Checked;
use crate::checking::check_judged;
use crate::numbers::{named, number};
use answers::Refusal;
use judge::Dictionary;
use pdo_channel::comm_index;

// A channel's three numbers.
fn lay(out: &mut [u64], at: usize, channel: u64, a: Checked)
    requires { at + 3 ≤ length out.old }
    ensures { out.new ≡ over out.old at (channel ∷ answer_number a ∷ element_of a ∷ []) }
{
    let line = [channel, number(a), named(a)];
    lists::lay(out, at, &line);
}

// How many numbers were laid.
fn check_each(d: &Dictionary, out: &mut [u64]) -> usize
    requires { 768 ≤ length out.old }
    ensures { laid_lines out.new result ≡ laid_on (lines_from d.now 256 0) out.old 0 }
{
    let mut n = 0;
    for i in 0..256u16 {
        let channel = i as u8;
        if entry::find(d.objects, comm_index(channel)).is_none() {
            continue;
        }
        let a = check_judged(d, channel);
        lay(out, n, i as u64, a);
        n += 3;
    }
    n
}

// Checks every channel of a dictionary that was judged.
pub fn check_all_judged(d: &Dictionary, out: &mut [u64]) -> Result<usize, Refusal>
    ensures { after_check_all result out.new ≡ check_all_of d.now out.old }
{
    // Opens d for the proof: an answer before any row is read needs that d is well-formed too.
    let _ = &d.objects;
    if out.len() < 768 {
        return Err(Refusal::BufferTooShort);
    }
    Ok(check_each(d, out))
}

// Checks every channel that has a record 1400h+i: three numbers each, the channel, its answer and the element.
pub fn check_all(
    objects: &[u64],
    slots: &[u64],
    words: &[u64],
    bytes: &[u8],
    out: &mut [u64],
) -> Result<usize, Refusal>
    ensures { after_check_all result out.new ≡ check_all_of (dict objects.now slots.now words.now bytes.now) out.old }
{
    let d = Dictionary::judged(objects, slots, words, bytes)?;
    check_all_judged(&d, out)
}
