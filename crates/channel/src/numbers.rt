// The numbers of the check's answers.
ghost use Rattle.std.specs.Prelude.{◌≡◌};
ghost use Rattle.channel.specs.Numbers.{answer_number, element_of};

use crate::Checked;
use element::fault_number;

// Both are functions, and no `From`: C calls them, and docs/PUBLIC.md names their definitions.
pub fn number(a: Checked) -> u64
    ensures { result ≡ answer_number a }
{
    match a {
        Checked::Pass => 0,
        Checked::NoSender => 31,
        Checked::NoList => 32,
        Checked::Element { fault, .. } => fault_number(fault),
        Checked::TooFar => 39,
        Checked::Refused(r) => answers::number(r),
    }
}

// The element that is named, or 0.
pub fn named(a: Checked) -> u64
    ensures { result ≡ element_of a }
{
    match a {
        Checked::Element { element, .. } => element as u64,
        _ => 0,
    }
}
