// A payload that is no longer than one may be, and what came with it.
ghost use Rattle.std.specs.Prelude.{◌≤◌, ◌<◌, length};
ghost use Rattle.lists.specs.Numbers.{Bytes};

// Its number is its place among the payloads of a cycle. That its bytes are bytes is said, since a proof knows it of a slice that is
// a parameter and not of one that is a field.
#[derive(Clone, Copy)]
pub struct Payload<'a> {
    pub bytes: &'a [u8],
    pub sender: u8,
    pub version: u8,
    pub number: u64,
    pub ghost short: { length bytes.now ≤ 1490 },
    pub ghost sane: { Bytes bytes.now },
    pub ghost few: { number < 1024 },
}
