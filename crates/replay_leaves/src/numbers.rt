// Answers as the numbers of `leaves.bin`, and its places as arguments.

/// A character, or a set's number, as a number.
pub fn wide(x: u32) -> usize {
    x as usize
}

/// Number k of a byte string: its length, then its bytes, and zeros behind them.
pub fn string(bytes: &[u8], k: usize) -> usize {
    if k == 0 {
        return bytes.len();
    }
    bytes.get(k - 1).map_or(0, |&byte| usize::from(byte))
}

/// A number up to FF as a byte.
pub fn low(n: usize) -> u8 {
    (n % 0x100) as u8
}

/// A number up to FFFF as a character.
pub fn scalar(n: usize) -> u32 {
    (n % 0x10000) as u32
}
