// The configured nodes: the Array 1F81h.
#![tactic(auto)]

ghost use Rattle.std.specs.Prelude.{◌≡◌, ◌≤◌, length, take};
ghost use Rattle.entry.specs.Table.{dict};
ghost use Rattle.entry.specs.Find.{Elements};
ghost use Rattle.nodes.specs.Nodes.{configured, nodes_from, elements_at, after_listing, cns_of};

use answers::Refusal;
use entry::{Row, Slot};
use judge::Dictionary;

// How many elements, and the slot of the first.
#[derive(Clone, Copy)]
struct Span {
    count: usize,
    first: usize,
}

// Whether a word of a type says that the node is configured.
fn is_configured(t: u64, w: u64) -> bool
    ensures { result ≡ configured t w }
{
    (t == 7) & ((w % 2 == 1) & (w / 256 % 2 == 0))
}

// The numbers of those that are configured, rising, at the start of `out`: how many there are.
fn lay_nodes(slots: &[u64], words: &[u64], count: usize, first: usize, out: &mut [u8; 254]) -> usize
    requires { Elements slots.now words.now count first }
    ensures count { result ≡ length (nodes_from slots.now words.now count 1 first) }
    ensures bound { result ≤ 254 }
    ensures laid { take result out.new ≡ nodes_from slots.now words.now count 1 first }
{
    let mut m = 0;
    for k in 0..count {
        let p = first + k;
        if is_configured(Slot(slots, p).value_type(), words[p]) {
            out[m] = (k + 1) as u8;
            m += 1;
        }
    }
    m
}

// The elements of 1F81h; none where it is missing or no Array. An Array may have none too: an Option would say it in two ways.
fn elements(d: &Dictionary) -> Span
    ensures { result ≡ elements_at d.now.objects }
{
    let Some(i) = entry::find(d.objects, 0x1F81) else {
        return Span { count: 0, first: 0 };
    };
    let row = Row(d.objects, i);
    if row.kind() == 1 {
        return Span {
            count: row.count() as usize,
            first: row.first() as usize,
        };
    }
    Span { count: 0, first: 0 }
}

// Lays the nodes of a dictionary that was judged.
pub fn get_configured_cns_judged(d: &Dictionary, out: &mut [u8]) -> Result<usize, Refusal>
    ensures { after_listing result out.new ≡ cns_of d.now out.old }
{
    let span = elements(d);
    let mut nodes = [0; 254];
    let m = lay_nodes(d.slots, d.words, span.count, span.first, &mut nodes);
    if out.len() < m {
        return Err(Refusal::BufferTooShort);
    }
    lists::lay(out, 0, &nodes[..m]);
    Ok(m)
}

// Lays the numbers of the configured nodes, rising, over `out`.
pub fn get_configured_cns(
    objects: &[u64],
    slots: &[u64],
    words: &[u64],
    bytes: &[u8],
    out: &mut [u8],
) -> Result<usize, Refusal>
    ensures { after_listing result out.new ≡ cns_of (dict objects.now slots.now words.now bytes.now) out.old }
{
    let d = Dictionary::judged(objects, slots, words, bytes)?;
    get_configured_cns_judged(&d, out)
}
