// Standard input in pieces, line by line, and standard output.
ghost use Rattle.std.specs.Prelude.{◌≡◌, ◌≤◌, true, length, IfSome};
ghost use Rattle.std.specs.ControlFlow.{MatchControlFlow};
ghost use Rattle.keys_lines.specs.Promises.{PrintRoom};
ghost use Rattle.keys.specs.Promises.{Buffers, Within};

use files::fail;
use std::io::{Error, Read};
use std::ops::ControlFlow;

/// How many printed bytes may wait before they are written.
const WAITING: usize = 65536;

/// Where the reading stands: lines ended, those of them that were malformed, bytes of the line that is being read (one
/// more than the longest where it is longer), bytes printed and not yet written, and whether nothing failed. A flag and no
/// `Result`, since behind a write that failed the lines of the piece are still counted.
#[derive(Clone, Copy, Debug, PartialEq, Eq)]
pub struct Progress {
    pub lines: u64,
    pub malformed: u64,
    pub len: usize,
    pub used: usize,
    pub good: bool,
}

/// Whether a write did not fail; why it did goes to standard error.
fn is_written(rt: &(impl Eprint + AllocGlobal), written: Result<(), Error>) -> bool {
    match written {
        Ok(()) => true,
        Err(why) => {
            fail(rt, b"standard output", why);
            false
        }
    }
}

/// Writes the bytes that wait, unless something failed before.
fn write_waiting(
    rt: &(impl Print + Eprint + AllocGlobal),
    out: &[u8],
    used: usize,
    good: bool,
) -> bool
    requires { used ≤ length out.now }
{
    good && is_written(rt, rt.write_all(&out[..used]))
}

/// Says that a line is malformed, behind what waits.
fn write_malformed(
    rt: &(impl Print + Eprint + AllocGlobal),
    out: &[u8],
    used: usize,
    good: bool,
    number: u64,
) -> bool
    requires { used ≤ length out.now }
{
    write_waiting(rt, out, used, good) && is_written(rt, println!(rt; "line {number}: malformed"))
}

/// Prints the line for the line of `len` bytes, and answers how many bytes that is; none where the line is malformed, as is
/// each that is longer than the buffer.
fn print(
    cells: &[u16],
    admitted: bool,
    line: &[u8],
    len: usize,
    title: &mut [u8],
    out: &mut [u8],
) -> Option<usize>
    requires { PrintRoom cells.now admitted (length title.old) (length out.old) }
    ensures { IfSome result (λ n. n ≤ length out.new) }
{
    if len > line.len() {
        return None;
    }
    keys_lines::print(cells, admitted, &line[..len], title, out)
}

/// A line ends.
fn end_line(
    rt: &(impl Print + Eprint + AllocGlobal),
    cells: &[u16],
    admitted: bool,
    line: &[u8],
    title: &mut [u8],
    out: &mut [u8],
    p: Progress,
) -> Progress
    requires { (Buffers cells.now admitted line.now title.old out.old) × (Within p) }
    ensures { Within result }
{
    let ended = Progress {
        lines: p.lines.wrapping_add(1),
        len: 0,
        used: 0,
        ..p
    };
    let at = p.used;
    let Some(n) = print(cells, admitted, line, p.len, title, &mut out[at..]) else {
        return Progress {
            malformed: p.malformed.wrapping_add(1),
            good: write_malformed(rt, out, at, p.good, ended.lines),
            ..ended
        };
    };
    let used = at + n;
    if used <= WAITING {
        return Progress { used, ..ended };
    }
    Progress {
        good: write_waiting(rt, out, used, p.good),
        ..ended
    }
}

/// Keeps the bytes of a piece from a place up to the next newline, behind the `len` bytes that the line has, as far as
/// they fit. The newline's place is answered, or the piece's length.
fn keep_line(piece: &[u8], from: usize, line: &mut [u8], len: usize) -> usize
    requires { (from ≤ length piece.now) × (len ≤ 131083) }
    ensures { (from ≤ result) × (result ≤ length piece.now) }
{
    for i in from..piece.len() {
        let b = piece[i];
        if b == b'\n' {
            return i;
        }
        if let Some(place) = line.get_mut(len + (i - from)) {
            *place = b;
        }
    }
    piece.len()
}

/// The line has n bytes more; past the longest line they are not counted.
fn count_bytes(p: Progress, n: usize) -> Progress
    requires { Within p }
    ensures { Within result }
{
    let more = n.min(keys_lines::LONGEST + 1 - p.len);
    Progress {
        len: p.len + more,
        ..p
    }
}

/// The bytes of a piece.
fn take_piece(
    rt: &(impl Print + Eprint + AllocGlobal),
    cells: &[u16],
    admitted: bool,
    piece: &[u8],
    line: &mut [u8],
    title: &mut [u8],
    out: &mut [u8],
    p: Progress,
) -> Progress
    requires { (Buffers cells.now admitted line.old title.old out.old) × (Within p) }
    ensures { Within result }
{
    let mut q = p;
    let mut i = 0;
    loop {
        let end = keep_line(piece, i, line, q.len);
        q = count_bytes(q, end - i);
        if end == piece.len() {
            return q;
        }
        q = end_line(rt, cells, admitted, line, title, out, q);
        i = end + 1;
    }
}

/// Reads a piece, takes its bytes, and writes what was printed. It breaks where there is nothing more to read.
fn read_piece(
    rt: &(impl Print + Eprint + AllocGlobal),
    reader: &mut impl Read,
    cells: &[u16],
    admitted: bool,
    line: &mut [u8],
    title: &mut [u8],
    out: &mut [u8],
    p: Progress,
) -> ControlFlow<Progress, Progress>
    requires { (Buffers cells.now admitted line.old title.old out.old) × (Within p) }
    ensures { MatchControlFlow result Within Within }
{
    let mut piece = piece_buffer();
    let n = match reader.read(&mut piece) {
        Ok(n) => n,
        Err(why) => {
            fail(rt, b"standard input", why);
            return ControlFlow::Break(Progress { good: false, ..p });
        }
    };
    if n == 0 {
        return ControlFlow::Break(p);
    }
    let q = take_piece(rt, cells, admitted, &piece[..n], line, title, out, p);
    let progress = Progress {
        used: 0,
        good: write_waiting(rt, out, q.used, q.good),
        ..q
    };
    if progress.good {
        ControlFlow::Continue(progress)
    } else {
        ControlFlow::Break(progress)
    }
}

/// Reads to the end. A proved loop has to end, and nothing says that the input does: the turns are as many as no run takes.
fn read_all(
    rt: &(impl Print + Eprint + AllocGlobal),
    reader: &mut impl Read,
    cells: &[u16],
    admitted: bool,
    line: &mut [u8],
    title: &mut [u8],
    out: &mut [u8],
) -> Progress
    requires { Buffers cells.now admitted line.old title.old out.old }
    ensures { Within result }
{
    let mut p = Progress {
        lines: 0,
        malformed: 0,
        len: 0,
        used: 0,
        good: true,
    };
    for _ in 0..u64::MAX {
        match read_piece(rt, reader, cells, admitted, line, title, out, p) {
            ControlFlow::Continue(next) => p = next,
            ControlFlow::Break(last) => return last,
        }
    }
    p
}

/// A last line that no newline ends.
fn last_line(
    rt: &(impl Print + Eprint + AllocGlobal),
    cells: &[u16],
    admitted: bool,
    line: &[u8],
    title: &mut [u8],
    out: &mut [u8],
    p: Progress,
) -> u64
    requires { (Buffers cells.now admitted line.now title.old out.old) × (Within p) }
{
    if !p.good || p.len == 0 {
        return p.malformed;
    }
    let q = end_line(rt, cells, admitted, line, title, out, p);
    write_waiting(rt, out, q.used, q.good);
    q.malformed
}

/// Zeros, for a piece, for a line, for a title, and for what waits to be written and one line more. Each `ensures` gives
/// the length, which is all that is asked of them.
fn piece_buffer() -> [u8; 65536]
    ensures { 65536 ≡ length result }
{
    [0; 65536]
}

fn line_buffer() -> [u8; 131082]
    ensures { 131082 ≡ length result }
{
    [0; 131082]
}

fn title_buffer() -> [u8; 65535]
    ensures { 65535 ≡ length result }
{
    [0; 65535]
}

fn out_buffer() -> [u8; 262156]
    ensures { 262156 ≡ length result }
{
    [0; 262156]
}

/// All lines; answers how many were malformed.
pub fn all_lines(rt: &(impl Print + Eprint + Input + AllocGlobal), cells: &[u16]) -> u64 {
    let admitted = questions::cells(cells);
    let mut line = line_buffer();
    let mut title = title_buffer();
    let mut out = out_buffer();
    let mut reader = rt.reader();
    let p = read_all(
        rt,
        &mut reader,
        cells,
        admitted,
        &mut line,
        &mut title,
        &mut out,
    );
    last_line(rt, cells, admitted, &line, &mut title, &mut out, p)
}
