// What is lent to a call, and what it must hold afterwards.
ghost use Rattle.std.specs.Prelude.{◌≡◌, length};

use crate::numbers::number;

/// 4,096 bytes of a pattern.
pub fn byte_room() -> [u8; 4096]
    ensures { 4096 ≡ length result }
{
    [0xA5; 4096]
}

/// 65,536 numbers of a pattern.
pub fn number_room() -> [u32; 65536]
    ensures { 65536 ≡ length result }
{
    [0xA5A5A5A5; 65536]
}

/// The bytes that are wanted, and zeros behind them.
pub fn same_bytes(buffer: &[u8], want: &[u8]) -> bool {
    buffer.starts_with(want) && buffer[want.len()..].iter().all(|&byte| byte == 0)
}

/// The numbers that are wanted, and zeros behind them.
pub fn same_numbers(buffer: &[u32], want: &[u8]) -> bool {
    for i in 0..buffer.len() {
        if buffer[i] != number(want, 4 * i) {
            return false;
        }
    }
    want.len() / 4 <= buffer.len()
}
