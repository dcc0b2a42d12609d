// A bookmark's waiting marks, request 9: out of the decoder, which keeps them as a number, and back into it.
#![tactic(auto)]

ghost use Rattle.std.specs.Prelude.{◌≡◌, true, List, [], ℕ, ◌+◌, ◌≤◌, ◌<◌, length, get_or};
ghost use Rattle.questions.specs.Buffer.{padded};
ghost use Rattle.decode_output.specs.Waiting.{mark_of};
ghost use Rattle.decode_output.specs.Promises as output;
ghost use Rattle.bookmark_form.specs.Numbers.{waits};
ghost use Rattle.bookmark_form.specs.Form.{marks_hold};
ghost use Rattle.bookmark_marks.specs.Marks.{unpacked};

use decode_output::Out;

/// How many marks a bookmark has room for.
pub const MARKS: usize = 16;

/// The mark of an octal digit. Table E-1.
fn mark_of(digit: u64) -> u32
    ensures { result ≡ mark_of digit }
{
    match digit {
        1 => 0x301,
        2 => 0x300,
        3 => 0x308,
        4 => 0x302,
        5 => 0x305,
        6 => 0x332,
        _ => 0x20DD,
    }
}

/// How many octal digits a number has, up to sixteen.
pub fn count(waiting: u64) -> usize
    ensures { (result ≡ length (unpacked 16 waiting [])) × (result ≤ 16) }
{
    let mut w = waiting;
    for n in 0..MARKS {
        if w == 0 {
            return n;
        }
        w /= 8;
    }
    MARKS
}

/// The waiting marks of a number, and zeros behind them.
pub fn unpack(waiting: u64) -> [u32; 16]
    ensures { result ≡ padded 16 (unpacked 16 waiting []) }
{
    let mut marks = [0u32; 16];
    let mut w = waiting;
    for k in (0..count(waiting)).rev() {
        marks[k] = mark_of(w % 8);
        w /= 8;
    }
    marks
}

/// What waits by a bookmark's numbers: the marks stand in front of the text.
pub fn restore(l: &[u32], text: &mut [u8]) -> Out
    requires { (length l.now ≡ 287) × (get_or l.now 9 0 ≤ 63) × (get_or l.now 10 0 ≤ 16) × (marks_hold l.now ≡ true) }
    ensures by_index { (i : List ℕ) → output.Holds text.old i (waits l.now) result text.new i }
    ensures len_value { (result.len ≡ 0) × (result.end ≤ 4096) × (result.issues ≡ 0) × (result.private_use ≡ 0) × (result.repeat ≤ 63) }
{
    let n = l[10] as usize;
    let mut out = decode_output::start();
    for mark in &l[12..12 + n] {
        out = decode_output::mark(out, *mark, 0, text);
    }
    out.first = l[11];
    out.repeat = l[9];
    out
}
