// The cases of `encode.bin`: calls of coding with their answers.
ghost use Rattle.replay_encode.specs.Small.{Small};

use replay_vectors::numbers::{count, number};

#[derive(Clone, Copy)]
pub struct CodingCase {
    /// 0 for `jis.tab`, 1 for zeros.
    pub table: u32,
    pub initial: u32,
    pub width: u32,
    /// The length of the text, of the store in numbers and of the coding buffer in bytes.
    pub text: usize,
    pub store_room: usize,
    pub coding_room: usize,
    /// The answer: the number of the refusal, 0 for none, its place, the coding's length and its gap.
    pub number: u32,
    pub place: usize,
    pub coding: usize,
    pub gap: usize,
}

/// The case at the start of a part of the file.
pub fn case_at(bytes: &[u8]) -> CodingCase
    ensures { Small result }
{
    CodingCase {
        table: number(bytes, 0),
        initial: number(bytes, 4),
        width: number(bytes, 8),
        text: count(bytes, 12),
        store_room: count(bytes, 16),
        coding_room: count(bytes, 20),
        number: number(bytes, 24),
        place: count(bytes, 28),
        coding: count(bytes, 32),
        gap: count(bytes, 36),
    }
}
