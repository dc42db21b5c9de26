// The channel check: the calls of c_checking.
ghost use Rattle.std.specs.Prelude.{◌≡◌};
ghost use Rattle.c_answers.specs.Answers.{lent, wrote, told};
ghost use Rattle.entry.specs.Table.{dict};
ghost use Rattle.channel.specs.All.{check_all_of};
ghost use Rattle.channel.specs.Check.{check_of};
ghost use Rattle.element.specs.Explain.{explain_of};
ghost use Rattle.c_checking.specs.Checking.{checked_told, check_all_numbers, explain_numbers};

#[unsafe(no_mangle)]
pub extern "C" fn loomfinch_check(
    objects: &[u64],
    slots: &[u64],
    words: &[u64],
    bytes: &[u8],
    channel: u8,
    element: &mut u64,
) -> u64
    ensures { told result element.new ≡ checked_told (check_of (dict objects.now slots.now words.now bytes.now) channel) element.old }
{
    c_checking::loomfinch_check(objects, slots, words, bytes, channel, element)
}

#[unsafe(no_mangle)]
pub extern "C" fn loomfinch_check_all(
    objects: &[u64],
    slots: &[u64],
    words: &[u64],
    bytes: &[u8],
    numbers: &mut [u64],
    count: &mut u64,
) -> u64
    ensures { wrote result numbers.new count.new ≡ check_all_numbers (check_all_of (dict objects.now slots.now words.now bytes.now) numbers.old) count.old }
{
    c_checking::loomfinch_check_all(objects, slots, words, bytes, numbers, count)
}

#[unsafe(no_mangle)]
pub extern "C" fn loomfinch_explain(
    objects: &[u64],
    slots: &[u64],
    words: &[u64],
    bytes: &[u8],
    channel: u8,
    element: u8,
    numbers: &mut [u64],
) -> u64
    ensures { lent result numbers.new ≡ explain_numbers (explain_of (dict objects.now slots.now words.now bytes.now) channel element) numbers.old }
{
    c_checking::loomfinch_explain(objects, slots, words, bytes, channel, element, numbers)
}
