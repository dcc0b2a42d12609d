// What a decoder has written: text and issues in two lent buffers, with the marks that wait at the
// end of the text. What does not fit is counted and not written, so that the counts are those of
// the whole result. From `emit`, `issue` and `flush_dangling` of decode.rs.
#![tactic(auto)]

ghost use Rattle.std.specs.Prelude.{◌≡◌, true, false, ℕ, ◌≤◌, List, length, take, set, replicate};
ghost use Rattle.std.proofs.lemmas.List.Edits.{sets};
ghost use Rattle.private_use.specs.PrivateUse.{is_private_use, private_use};
ghost use Rattle.utf8.specs.Utf8.{utf8s};
ghost use Rattle.decode_output.specs.Output.{
  nothing,
  times,
  emit_times,
  emit,
  mark,
  report,
  release,
  newline,
};
ghost use Rattle.decode_output.specs.Waiting.{digit, pushed};
ghost use Rattle.decode_output.specs.Promises.{out_of, counted, Room, Wrote};

use issues::{IssueKind, NUMBERS};

/// A repeat and an offset are 0 for none and not options, since `out_of` gives them as 01's `Output` has them, and a
/// bookmark's numbers (request 9) do too. The marks are one number: an array with a count would be two fields for one
/// that each character clears.
#[derive(Clone, Copy)]
pub struct Out {
    /// Bytes of the text without the waiting marks.
    pub len: usize,
    /// Bytes with them: where the next mark goes.
    pub end: usize,
    /// The waiting marks: an octal digit for each of up to sixteen, the first one's the highest.
    pub waiting: u64,
    /// The first waiting mark's offset, 0 where none waits.
    pub first: u32,
    /// The waiting repeat, 0 where none waits.
    pub repeat: u32,
    /// Issues reported.
    pub issues: u32,
    /// Private-use characters written.
    pub private_use: u32,
}

/// Nothing is written, and nothing waits.
pub fn start() -> Out
    ensures { result ≡ out_of nothing }
{
    Out {
        len: 0,
        end: 0,
        waiting: 0,
        first: 0,
        repeat: 0,
        issues: 0,
        private_use: 0,
    }
}

/// Moves the first m bytes of the part up by d, those that still fit.
fn shift_up(part: &mut [u8], m: usize, d: usize)
    ensures { part.new ≡ sets part.old d (take m part.old) }
{
    if d < part.len() {
        let n = m.min(part.len() - d);
        part.copy_within(..n, d);
    }
}

/// Writes c from the start of the part on, n times.
fn put_times(part: &mut [u8], c: u32, n: u32)
    requires { n ≤ 63 }
    ensures { part.new ≡ sets part.old 0 (utf8s (replicate n c)) }
{
    let mut to = 0;
    for _ in 0..n {
        to += utf8::put(part, to, c);
    }
}

/// The part begins with m bytes of waiting marks: they move up past c, written n times in d bytes.
fn insert(part: &mut [u8], m: usize, c: u32, n: u32, d: usize)
    requires { (n ≤ 63) × (d ≡ length (utf8s (replicate n c))) }
    ensures { part.new ≡ sets (sets part.old d (take m part.old)) 0 (utf8s (replicate n c)) }
{
    shift_up(part, m, d);
    put_times(part, c, n);
}

/// Writes a character n times, and moves the waiting marks behind it; private-use characters are not counted yet.
/// §7.1.1.4.
fn emit_times(o: Out, c: u32, n: u32, text: &mut [u8]) -> Out
    requires room { Room 1 0 o }
    requires le_n { (1 ≤ n) × (n ≤ 63) }
    ensures { (i : List ℕ) → Wrote 1 0 (emit_times n c) o text.old i (counted (private_use (replicate n c)) result) text.new i }
{
    let len = o.len;
    let end = o.end;
    let d = utf8::width(c) * (n as usize);
    let to = end + d;
    let r = Out {
        len: to,
        end: to,
        waiting: 0,
        first: 0,
        repeat: 0,
        issues: o.issues,
        private_use: o.private_use,
    };
    if len <= text.len() {
        insert(&mut text[len..], end - len, c, n, d);
    }
    r
}

/// Writes a character as often as the waiting repeat says, then the waiting marks; private-use characters are not counted
/// yet. §7.1.1.4.
fn emit_uncounted(o: Out, c: u32, text: &mut [u8]) -> Out
    requires { Room 1 0 o }
    ensures { (i : List ℕ) → Wrote 1 0 (emit c) o text.old i (counted (private_use (replicate (times o.repeat) c)) result) text.new i }
{
    if o.repeat != 0 {
        return emit_times(o, c, o.repeat, text);
    }
    let end = o.end;
    if o.len != end {
        return emit_times(o, c, 1, text);
    }
    let to = end + utf8::put(text, end, c);
    Out {
        len: to,
        end: to,
        waiting: 0,
        first: 0,
        repeat: 0,
        issues: o.issues,
        private_use: o.private_use,
    }
}

/// Writes an ordinary character.
pub fn emit(o: Out, c: u32, text: &mut [u8]) -> Out
    requires room { Room 1 0 o }
    requires c_value { is_private_use c ≡ false }
    ensures { (i : List ℕ) → Wrote 1 0 (emit c) o text.old i result text.new i }
{
    emit_uncounted(o, c, text)
}

/// How often the next character is written.
fn times(repeat: u32) -> u32
    ensures { result ≡ times repeat }
{
    repeat.max(1)
}

/// Writes a private-use character, and counts each repeat.
pub fn emit_private_use(o: Out, c: u32, text: &mut [u8]) -> Out
    requires room { Room 1 0 o }
    requires c_value { is_private_use c ≡ true }
    ensures { (i : List ℕ) → Wrote 1 0 (emit c) o text.old i result text.new i }
{
    let n = times(o.repeat);
    let mut r = emit_uncounted(o, c, text);
    r.private_use = r.private_use + n;
    r
}

/// More waiting marks than sixteen: the least number of seventeen octal digits.
pub const SEVENTEEN_DIGITS: u64 = 0x1000000000000;

/// A mark as an octal digit. Table E-1.
fn digit(m: u32) -> u64
    ensures { (result ≡ digit m) × (result ≤ 7) }
{
    match m {
        0x301 => 1,
        0x300 => 2,
        0x308 => 3,
        0x302 => 4,
        0x305 => 5,
        0x332 => 6,
        _ => 7,
    }
}

/// The waiting marks and one more; behind seventeen they are told apart no longer.
fn pushed(waiting: u64, m: u32) -> u64
    ensures { result ≡ pushed waiting m }
{
    if waiting < SEVENTEEN_DIGITS {
        waiting * 8 + digit(m)
    } else {
        waiting
    }
}

/// A non-spacing character waits for the character that it combines with. §7.1.1.4.
pub fn mark(o: Out, m: u32, at: u32, text: &mut [u8]) -> Out
    requires room { Room 1 0 o }
    requires m_value { is_private_use m ≡ false }
    ensures { (i : List ℕ) → Wrote 1 0 (mark m at) o text.old i result text.new i }
{
    let end = o.end;
    let mut r = o;
    r.end = end + utf8::put(text, end, m);
    r.waiting = pushed(o.waiting, m);
    if o.len == end {
        r.first = at;
    }
    r
}

/// Writes x at the place n, if it fits.
fn put32(d: &mut [u32], n: usize, x: u32)
    ensures { d.new ≡ set d.old n x }
{
    if n < d.len() {
        d[n] = x;
    }
}

/// Reports an issue: the one place where issues are written. Its position is where the text ends,
/// the waiting marks not counted.
pub fn issue(o: Out, at: u32, kind: IssueKind, issues: &mut [u32]) -> Out
    requires { Room 0 1 o }
    ensures { (t : List ℕ) → Wrote 0 1 (report at kind) o t issues.old result t issues.new }
{
    let n = kind.numbers();
    let k = o.issues as usize * NUMBERS;
    put32(issues, k, at);
    put32(issues, k + 1, n.kind);
    put32(issues, k + 2, n.first);
    put32(issues, k + 3, n.second);
    put32(issues, k + 4, o.len as u32);
    let mut r = o;
    r.issues = o.issues + 1;
    r
}

/// Waiting marks without a base stay where they stand, and the first one's offset is reported.
pub fn flush_dangling(o: Out, issues: &mut [u32]) -> Out
    requires { Room 0 1 o }
    ensures { (t : List ℕ) → Wrote 0 1 release o t issues.old result t issues.new }
{
    if o.len == o.end {
        return o;
    }
    let mut r = issue(o, o.first, IssueKind::DanglingNonSpacing, issues);
    r.len = r.end;
    r.waiting = 0;
    r.first = 0;
    r
}

/// APR: marks still waiting stay before the new line, and the waiting repeat waits on. Table 7-15.
pub fn newline(o: Out, text: &mut [u8], issues: &mut [u32]) -> Out
    requires { Room 1 1 o }
    ensures { Wrote 1 1 newline o text.old issues.old result text.new issues.new }
{
    let mut r = flush_dangling(o, issues);
    let end = r.end;
    let to = end + utf8::put(text, end, 0x0A);
    r.len = to;
    r.end = to;
    r
}
