// The cases of `decode.bin`: calls of decoding with their answers.
ghost use Rattle.replay_decode_cases.specs.Small.{Small};

use questions::refusal::Refusal;
use replay_vectors::numbers::{count, number};

#[derive(Clone, Copy)]
pub struct DecodingCase {
    /// 0 for `jis.tab`, 1 for zeros.
    pub table: u32,
    pub initial: u32,
    pub width: u32,
    /// The length of the input, and of the two buffers in bytes and in numbers.
    pub input: usize,
    pub text_room: usize,
    pub issue_room: usize,
    /// The answer: the number of the refusal, 0 for none, its place, and the counts.
    pub number: u32,
    pub place: usize,
    pub text: usize,
    pub issues: usize,
    pub charged: usize,
    pub private_use: usize,
}

/// The case at the start of a part of the file.
pub fn case_at(bytes: &[u8]) -> DecodingCase
    ensures { Small result }
{
    DecodingCase {
        table: number(bytes, 0),
        initial: number(bytes, 4),
        width: number(bytes, 8),
        input: count(bytes, 12),
        text_room: count(bytes, 16),
        issue_room: count(bytes, 20),
        number: number(bytes, 24),
        place: count(bytes, 28),
        text: count(bytes, 32),
        issues: count(bytes, 36),
        charged: count(bytes, 40),
        private_use: count(bytes, 44),
    }
}

/// Whether one of questions 1 to 3 refuses, as the case says: those that a call without buffers asks.
pub fn same_refusal(refusal: Refusal, case: DecodingCase) -> bool {
    let number = refusal.number();
    (number < 4) & (number == case.number) & (refusal.place() == 0)
}
