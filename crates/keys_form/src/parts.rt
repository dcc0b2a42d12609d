// The parts of a line: NUMBER TAB HEX.
ghost use Rattle.std.specs.Prelude.{◌≡◌, true, ◌*◌, ◌≤◌, length, if◌then◌else◌};
ghost use Rattle.keys_form.specs.Line.{is_decimal, is_number, hex_value, is_hex_digit, is_hex, bytes_of, trimmed, tab_at, is_line};
ghost use Rattle.keys_form.specs.Promises.{Titled};

/// The line without a carriage return at its end.
pub fn trimmed(line: &[u8]) -> &[u8]
    ensures { result.now ≡ trimmed line.now }
{
    match line {
        [front @ .., b'\r'] => front,
        _ => line,
    }
}

/// The place of the first TAB; the length where there is none.
pub fn tab_at(line: &[u8]) -> usize
    ensures { result ≡ tab_at line.now }
{
    for (i, x) in line.iter().enumerate() {
        if *x == b'\t' {
            return i;
        }
    }
    line.len()
}

/// 0 to 9.
fn is_decimal(x: u8) -> bool
    ensures { result ≡ is_decimal x }
{
    x.is_ascii_digit()
}

/// NUMBER: one to ten decimal digits that make a number of 32 bits.
fn is_number(ds: &[u8]) -> bool
    ensures { result ≡ is_number ds.now }
{
    if ds.is_empty() {
        return false;
    }
    if ds.len() > 10 {
        return false;
    }
    let mut v: u64 = 0;
    for x in ds {
        if !is_decimal(*x) {
            return false;
        }
        v = v * 10 + u64::from(*x - b'0');
        if v > 0xFFFFFFFF {
            return false;
        }
    }
    true
}

/// The value of a hexadecimal digit in either case.
fn hex_value(x: u8) -> Option<u8>
    ensures { result ≡ (if is_hex_digit x then Some (hex_value x) else None) }
{
    match x {
        b'0'..=b'9' => Some(x - b'0'),
        b'A'..=b'F' => Some(x - b'A' + 10),
        b'a'..=b'f' => Some(x - b'a' + 10),
        _ => None,
    }
}

/// HEX: an even count of hexadecimal digits, for 65,535 bytes at most.
fn is_hex(ds: &[u8]) -> bool
    ensures { result ≡ is_hex ds.now }
{
    if ds.len() > 131070 {
        return false;
    }
    if ds.len() % 2 != 0 {
        return false;
    }
    for x in ds {
        if hex_value(*x).is_none() {
            return false;
        }
    }
    true
}

/// NUMBER TAB HEX, where the first TAB stands at a place.
pub fn is_line(line: &[u8], tab: usize) -> bool
    requires { tab ≡ tab_at line.now }
    ensures { result ≡ is_line line.now }
{
    if tab >= line.len() {
        return false;
    }
    if !is_number(&line[..tab]) {
        return false;
    }
    is_hex(&line[tab + 1..])
}

/// The bytes of HEX.
fn put_bytes(ds: &[u8], bytes: &mut [u8])
    requires { (is_hex ds.now ≡ true) × (length bytes.old * 2 ≡ length ds.now) }
    ensures { bytes.new ≡ bytes_of ds.now }
{
    for (i, byte) in bytes.iter_mut().enumerate() {
        *byte = hex_value(ds[2 * i]).unwrap() * 16 + hex_value(ds[2 * i + 1]).unwrap();
    }
}

/// Puts the title of a line, whose TAB stands at a place, at the front of a buffer, and answers its length.
pub fn put_title(line: &[u8], tab: usize, title: &mut [u8]) -> usize
    requires { (is_line line.now ≡ true) × (tab ≡ tab_at line.now) × (65535 ≤ length title.old) }
    ensures { Titled line.now title.old title.new result }
{
    let hex = &line[tab + 1..];
    let n = hex.len() / 2;
    put_bytes(hex, &mut title[..n]);
    n
}
