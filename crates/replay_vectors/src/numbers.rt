// The numbers of a file of cases: four bytes, big-endian.
ghost use Rattle.std.specs.Prelude.{◌≤◌};

use crate::files::byte;

/// The number at a place; bytes past the end are 0.
pub fn number(bytes: &[u8], at: usize) -> u32 {
    if at >= bytes.len() {
        return 0;
    }
    u32::from_be_bytes([
        byte(bytes, at) as u8,
        byte(bytes, at + 1) as u8,
        byte(bytes, at + 2) as u8,
        byte(bytes, at + 3) as u8,
    ])
}

/// The same as a count.
pub fn count(bytes: &[u8], at: usize) -> usize
    ensures { result ≤ 0xFFFFFFFF }
{
    number(bytes, at) as usize
}
