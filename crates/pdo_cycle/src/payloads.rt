// The numbers of the payloads: five for each.
ghost use Rattle.std.specs.Prelude.{◌≡◌, ◌+◌, ◌*◌, ◌≤◌, length, take, drop};
ghost use Rattle.std.specs.List.{list_all};
ghost use Rattle.pdo_cycle.specs.Payloads.{is_placed, is_short, are_shaped};

// The numbers of payload i.
pub fn numbers_of(payloads: &[u64], i: usize) -> [u64; 5]
    requires { 5 * i + 5 ≤ length payloads.now }
    ensures { result ≡ take 5 (drop (5 * i) payloads.now) }
{
    payloads.as_chunks::<5>().0[i]
}

// Does a payload lie within so many bytes, and have a sender and a version?
fn placed(size: u64, numbers: &[u64; 5]) -> bool
    ensures { result ≡ is_placed size numbers.now 0 }
{
    let [start, length, sender, version, _] = *numbers;
    if size < length {
        return false;
    }
    (start <= size - length) & ((sender <= 255) & (version <= 255))
}

fn short(numbers: &[u64; 5]) -> bool
    ensures { result ≡ is_short numbers.now 0 }
{
    let [_, length, ..] = *numbers;
    length <= 1490
}

pub fn all_placed(size: u64, each: &[[u64; 5]]) -> bool
    ensures { result ≡ list_all (λ numbers. is_placed size numbers 0) each.now }
{
    each.iter().all(|numbers| placed(size, numbers))
}

pub fn all_short(each: &[[u64; 5]]) -> bool
    ensures { result ≡ list_all (λ numbers. is_short numbers 0) each.now }
{
    each.iter().all(short)
}

pub fn shaped(payloads: &[u64]) -> bool
    ensures { result ≡ are_shaped payloads.now }
{
    (payloads.len() % 5 == 0) & (payloads.len() / 5 <= 1024)
}
