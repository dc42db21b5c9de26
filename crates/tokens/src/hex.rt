// Tokens of a line: numbers and bytes in hexadecimal digits, a space between two of them.
ghost use Rattle.std.specs.Prelude.{◌≤◌, ◌<◌, length, IfSome};
ghost use Rattle.tokens.specs.Tokens.{Counts};

// The number of a digit; its letters are those of the upper case alone.
fn digit(b: u8) -> Option<u32>
    ensures { IfSome result (λ d. d < 16) }
{
    if b.is_ascii_lowercase() {
        return None;
    }
    char::from(b).to_digit(16)
}

// What is there from `at` on.
fn rest(s: &[u8], at: usize) -> &[u8]
    ensures { length result.now ≤ length s.now }
{
    s.get(at..).unwrap_or(&[])
}

// The number that starts at `at`.
pub fn number(s: &[u8], at: usize) -> u64 {
    let digits = rest(s, at).iter().map_while(|b| digit(*b));
    digits.fold(0, |n, d| n << 4 | u64::from(d))
}

// Where the next token starts: behind the next space or line end.
pub fn next(s: &[u8], at: usize) -> usize
    ensures { result ≤ length s.now }
{
    for i in at..s.len() {
        if matches!(s[i], b' ' | b'\n') {
            return i + 1;
        }
    }
    s.len()
}

// Does the token that starts at `at` have another behind it in its line?
pub fn has_next(s: &[u8], at: usize) -> bool {
    let end = rest(s, at).iter().find(|b| matches!(**b, b' ' | b'\n'));
    matches!(end, Some(b' '))
}

// Puts the bytes that start at `at` into `out`, as many as it has room for, and answers how many.
pub fn bytes(s: &[u8], at: usize, out: &mut [u8]) -> usize
    ensures { Counts result out.new }
{
    let digits = rest(s, at);
    let most = out.len().min(digits.len() / 2);
    for n in 0..most {
        let (Some(high), Some(low)) = (digit(digits[2 * n]), digit(digits[2 * n + 1])) else {
            return n;
        };
        out[n] = (high * 16 + low) as u8;
    }
    most
}

// The last number of the line in which `at` lies.
pub fn last(s: &[u8], at: usize) -> u64 {
    let mut start = at;
    for i in at..s.len() {
        match s[i] {
            b'\n' => break,
            b' ' => start = i + 1,
            _ => {}
        }
    }
    number(s, start)
}

// The number that starts at `at` as an index, or a sub-index: two widths, which a generic function would say no shorter.
pub fn index_at(s: &[u8], at: usize) -> u16 {
    (number(s, at) % 0x1_0000) as u16
}

pub fn sub_at(s: &[u8], at: usize) -> u8 {
    (number(s, at) % 0x100) as u8
}
