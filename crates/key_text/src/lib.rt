// The key of a text, by which two spellings of one title are found equal: the text without newline, U+0020 and U+3000,
// its full-width alphanumerics made half-width. 01, "Keys", and request 1 of docs/REQUESTS.md.
#![tactic(auto)]

ghost use Rattle.std.specs.Prelude.{◌≡◌, [], ◌≤◌, length};
ghost use Rattle.lent.specs.Put.{Put};
ghost use Rattle.utf8.specs.Utf8.{utf8s};
ghost use Rattle.key_text.specs.KeyText.{key_char, kept};
ghost use Rattle.key_text.specs.Promises.{kept_of, Removed};

use utf8::Sequence;

/// The rule of a key, character by character: what a key has for one, if anything. The full-width forms of the 94 alphanumerics are a run, and that of YEN
/// SIGN, which the set has in the place of backslash. What is kept takes no more bytes than what it stands for.
pub fn key_char(c: u32) -> Option<u32>
    ensures { kept_of result ≡ key_char c }
{
    match c {
        0x0A | 0x20 | 0x3000 => None,
        0xFF3C => Some(c),
        0xFF01..=0xFF5E => Some(c - 0xFF01 + 0x21),
        0xFFE5 => Some(0xA5),
        _ => Some(c),
    }
}

/// Puts what a key has for a character from a place of the text on, and answers the place behind it.
fn put(text: &mut [u8], at: usize, c: u32) -> usize
    requires { at ≤ length text.old }
    ensures { Put text.old at (utf8s (kept (key_char c) [])) text.new result }
{
    match key_char(c) {
        Some(x) => at + utf8::put(text, at, x),
        None => at,
    }
}

/// Puts a text's key in its place, with zeros behind it, and answers the key's length. What is kept stands no further on
/// than what was read, so that the text moves up in its own buffer.
pub fn remove(text: &mut [u8]) -> usize
    ensures { Removed text.old result text.new }
{
    let mut at = 0;
    let mut to = 0;
    while let Sequence::Scalar(c, n) = utf8::read(text, at) {
        to = put(text, to, c);
        at += n;
    }
    questions::clear(text, to);
    to
}
