// The number of an event: RULES.md R11.14.
ghost use Rattle.std.specs.Prelude.{◌≡◌, ◌+◌, ◌<◌};
ghost use Rattle.event.specs.Record.{packed};

// An event as one number, of its parts. The kind is a number, as R11.14's kinds are just these.
pub fn packed(payload: u64, kind: u64, element: u64, index: u16, start: usize, len: usize) -> u64
    requires { (payload < 1024) × (kind < 16) × (element < 256) × (start + len < 8192) }
    ensures { result ≡ packed payload kind element index start len }
{
    let field = start as u64 + 8192 * (len as u64 + 8192 * payload);
    kind + 16 * (element + 256 * (index as u64 + 65536 * field))
}
