// The cases of `bookmark.bin`: calls of bookmarks with their answers.
use replay_vectors::numbers::{count, number};

/// A place is named.
pub const SET: u32 = 0;

/// A name is returned to.
pub const RETURN: u32 = 1;

/// Where the input starts in a case.
pub const INPUT: usize = 72;

#[derive(Clone, Copy)]
pub struct Case {
    /// `SET` or `RETURN`.
    pub call: u32,
    /// 0 for `jis.tab`, 1 for zeros, 2 for zeros, one of them too few.
    pub table: u32,
    pub initial: u32,
    pub width: u32,
    pub name: u32,
    /// The place that is named.
    pub place: usize,
    /// The length of the two buffers in bytes and in numbers, and of the store in numbers.
    pub text_room: usize,
    pub issue_room: usize,
    pub store: usize,
    /// 1 where the store before the call is in the file, 0 where it is what the case before left.
    pub loaded: u32,
    /// The answer: the number of the refusal, 0 for none, and the counts of a return.
    pub refused: u32,
    pub text: usize,
    pub issues: usize,
    pub charged: usize,
    pub private_use: usize,
    /// Where the store before the call, the text, the issues and the store after a set start in the case, and its end.
    pub before_at: usize,
    pub text_at: usize,
    pub issues_at: usize,
    pub after_at: usize,
    pub end: usize,
}

/// The case at the start of a part of the file: a number of a store has 4 bytes, an issue 20.
pub fn case_at(bytes: &[u8]) -> Case {
    let text = count(bytes, 52);
    let issues = count(bytes, 56);
    let before_at = INPUT + count(bytes, 24);
    let text_at = before_at + 4 * count(bytes, 44);
    let issues_at = text_at + text;
    let after_at = issues_at + 20 * issues;
    let end = after_at + 4 * count(bytes, 68);
    Case {
        call: number(bytes, 0),
        table: number(bytes, 4),
        initial: number(bytes, 8),
        width: number(bytes, 12),
        name: number(bytes, 16),
        place: count(bytes, 20),
        text_room: count(bytes, 28),
        issue_room: count(bytes, 32),
        store: count(bytes, 36),
        loaded: number(bytes, 40),
        refused: number(bytes, 48),
        text,
        issues,
        charged: count(bytes, 60),
        private_use: count(bytes, 64),
        before_at,
        text_at,
        issues_at,
        after_at,
        end,
    }
}

/// A part of a case's bytes; the empty one where they have no such part.
pub fn part(bytes: &[u8], from: usize, to: usize) -> &[u8] {
    if to > bytes.len() {
        return &bytes[0..0];
    }
    if from > to {
        return &bytes[0..0];
    }
    &bytes[from..to]
}
