// Words and numbers in ASCII, written into a buffer from a place on. What does not fit is not
// written; the answer is the place behind in any case, so places are bounded.
#![tactic(auto)]

ghost use Rattle.std.specs.Prelude.{◌+◌, ◌≤◌, ◌<◌, ◌≡◌, length, set};
ghost use Rattle.lent.specs.Put.{Put};
ghost use Rattle.ascii.specs.Ascii.{digit, decimal, hexadecimal, refused_line};

/// One byte.
fn put(out: &mut [u8], at: usize, x: u8)
    ensures { out.new ≡ set out.old at x }
{
    if at < out.len() {
        out[at] = x;
    }
}

/// The bytes of a word.
pub fn word(out: &mut [u8], at: usize, w: &[u8]) -> usize
    requires { at ≤ 0x100000 }
    ensures { Put out.old at w.now out.new result }
{
    for (i, x) in w.iter().enumerate() {
        put(out, at + i, *x);
    }
    at + w.len()
}

/// 0 to 9, then A to F.
fn digit(d: usize) -> u8
    requires { d < 16 }
    ensures { result ≡ digit d }
{
    if d < 10 { 48 + d as u8 } else { 55 + d as u8 }
}

/// A number in decimal: the last digit behind those of the rest.
pub fn decimal(out: &mut [u8], at: usize, n: usize) -> usize
    requires { at ≤ 0x100000 }
    ensures put { Put out.old at (decimal n) out.new result }
    ensures upper_bound { result ≤ at + 20 }
{
    if n < 10 {
        put(out, at, digit(n));
        return at + 1;
    }
    let next = decimal(out, at, n / 10);
    put(out, next, digit(n % 10));
    next + 1
}

/// Bytes in hexadecimal.
pub fn hexadecimal(out: &mut [u8], at: usize, bytes: &[u8]) -> usize
    requires { (at ≤ 0x100000) × (length bytes.now ≤ 65536) }
    ensures { Put out.old at (hexadecimal bytes.now) out.new result }
{
    let mut next = at;
    for b in bytes {
        put(out, next, digit(usize::from(*b / 16)));
        put(out, next + 1, digit(usize::from(*b % 16)));
        next += 2;
    }
    next
}

/// The line of a refusal: its number and its place.
pub fn refused(out: &mut [u8], at: usize, number: u32, place: usize) -> usize
    requires { at ≤ 0x80000 }
    ensures put { Put out.old at (refused_line number place) out.new result }
    ensures upper_bound { result ≤ at + 50 }
{
    let mut next = word(out, at, b"refused ");
    next = decimal(out, next, number as usize);
    next = word(out, next, b" ");
    next = decimal(out, next, place);
    word(out, next, b"\n")
}
