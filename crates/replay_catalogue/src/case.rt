// The cases of `catalogue.bin`: calls of the catalogue with their answers.
ghost use Rattle.std.specs.Prelude.{◌≤◌};
ghost use Rattle.replay_catalogue.specs.Small.{Small};

use replay_vectors::numbers::{count, number};

/// A title is added.
pub const ADD: u32 = 0;

/// An entry is removed.
pub const REMOVE: u32 = 1;

/// A key is sought.
pub const FIND: u32 = 2;

#[derive(Clone, Copy)]
pub struct Case {
    /// `ADD`, `REMOVE` or `FIND`.
    pub call: u32,
    /// 0 for `jis.tab`, 1 for zeros.
    pub table: u32,
    pub initial: u32,
    pub width: u32,
    /// The entry's number.
    pub number: u32,
    /// The length of the title, or of the key that is sought; of the key's buffer, and of the store.
    pub input: usize,
    pub room: usize,
    pub store: usize,
    /// 1 where the store before the call is in the file, 0 where it is what the case before left; and its length there.
    pub loaded: u32,
    pub before: usize,
    /// The answer: the number of the refusal, 0 for none; the key's length and the charge, or the entries that have the
    /// key and the smallest of their numbers.
    pub refused: u32,
    pub first: usize,
    pub second: usize,
    /// The length of the store after the call, in the file.
    pub after: usize,
}

/// The case at the start of a part of the file.
pub fn case_at(bytes: &[u8]) -> Case
    ensures { Small result }
{
    Case {
        call: number(bytes, 0),
        table: number(bytes, 4),
        initial: number(bytes, 8),
        width: number(bytes, 12),
        number: number(bytes, 16),
        input: count(bytes, 20),
        room: count(bytes, 24),
        store: count(bytes, 28),
        loaded: number(bytes, 32),
        before: count(bytes, 36),
        refused: number(bytes, 40),
        first: count(bytes, 44),
        second: count(bytes, 48),
        after: count(bytes, 52),
    }
}

/// The bytes of the key in the file: those of an add that is accepted.
pub fn key_bytes(case: Case) -> usize
    ensures { result ≤ case.first }
{
    if case.call != ADD {
        return 0;
    }
    if case.refused != 0 {
        return 0;
    }
    case.first
}
