// The channel check, for C.
#![tactic(auto)]

ghost use Rattle.std.specs.Prelude.{◌≡◌};
ghost use Rattle.entry.specs.Table.{dict};
ghost use Rattle.channel.specs.All.{check_all_of};
ghost use Rattle.channel.specs.Check.{check_of};
ghost use Rattle.element.specs.Explain.{explain_of};
ghost use Rattle.c_answers.specs.Answers.{lent, wrote, told};
ghost use Rattle.c_checking.specs.Checking.{checked_element, checked_told, check_all_numbers, explain_numbers};

use channel::Checked;

// The element that an answer names; a refusal leaves what was lent.
fn element_of(a: Checked, lent: u64) -> u64
    ensures { result ≡ checked_element a lent }
{
    match a {
        Checked::Refused(_) => lent,
        _ => channel::named(a),
    }
}

pub fn loomfinch_check(
    objects: &[u64],
    slots: &[u64],
    words: &[u64],
    bytes: &[u8],
    channel: u8,
    element: &mut u64,
) -> u64
    ensures { told result element.new ≡ checked_told (check_of (dict objects.now slots.now words.now bytes.now) channel) element.old }
{
    let a = channel::check(objects, slots, words, bytes, channel);
    *element = element_of(a, *element);
    channel::number(a)
}

#[tactic(auto, unfolding(crate::specs::Checking::check_all_numbers))]
pub fn loomfinch_check_all(
    objects: &[u64],
    slots: &[u64],
    words: &[u64],
    bytes: &[u8],
    numbers: &mut [u64],
    count: &mut u64,
) -> u64
    ensures { wrote result numbers.new count.new ≡ check_all_numbers (check_all_of (dict objects.now slots.now words.now bytes.now) numbers.old) count.old }
{
    let found = channel::check_all(objects, slots, words, bytes, numbers);
    c_answers::tell_number(found, count)
}

#[tactic(auto, using(crate::proofs::ExplainedLaws::explained))]
pub fn loomfinch_explain(
    objects: &[u64],
    slots: &[u64],
    words: &[u64],
    bytes: &[u8],
    channel: u8,
    element: u8,
    numbers: &mut [u64],
) -> u64
    ensures { lent result numbers.new ≡ explain_numbers (explain_of (dict objects.now slots.now words.now bytes.now) channel element) numbers.old }
{
    let e = element::explain(objects, slots, words, bytes, channel, element);
    if let Err(r) = e {
        return answers::number(r);
    }
    c_answers::lend(&element::explained_numbers(e), numbers)
}
