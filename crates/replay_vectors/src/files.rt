// Files and their numbers, which are big-endian.
ghost use Rattle.std.specs.Prelude.{◌≡◌, ◌<◌, ◌≤◌, length, take};

use std::fs::File;
use std::io::Read;
use std::rt::Files;
use std::str::from_utf8;

/// 524,288 zeros, more than a file of cases has bytes. The `ensures` gives the length, which is all that is asked of them.
pub fn file_room() -> [u8; 524288]
    ensures { 524288 ≡ length result }
{
    [0; 524288]
}

/// One read, of at most a buffer: 0 where it fails.
fn read_once(reader: &mut impl Read, buffer: &mut [u8]) -> usize
    ensures { result ≤ length buffer.new }
{
    reader.read(buffer).unwrap_or(0)
}

/// Reads until the buffer is full, the input ends or a read fails, and answers how many bytes it read.
fn read_full(reader: &mut impl Read, buffer: &mut [u8]) -> usize
    ensures within { result ≤ length buffer.new }
    ensures prefix { result ≡ length (take result buffer.new) }
{
    // A loop, since `read_exact` does not say how many bytes a shorter file gave.
    let mut done = 0;
    while done < buffer.len() {
        let n = read_once(reader, &mut buffer[done..]);
        if n == 0 {
            break;
        }
        done += n;
    }
    done
}

/// Reads a file up to its end, or until the buffer is full, and answers how many bytes it read: 0
/// where it cannot be opened.
pub fn read(rt: &impl Files, path: &[u8], buffer: &mut [u8]) -> usize
    ensures within { result ≤ length buffer.new }
    ensures prefix { result ≡ length (take result buffer.new) }
{
    let Ok(path) = from_utf8(path) else {
        return 0;
    };
    match File::open(rt, path) {
        Ok(mut file) => read_full(&mut file, buffer),
        Err(_) => 0,
    }
}

/// The byte at a place, 0 past the end.
pub fn byte(bytes: &[u8], i: usize) -> usize
    ensures { result < 256 }
{
    bytes.get(i).map_or(0, |&x| usize::from(x))
}

/// Fills the cell table from `jis.tab`, and answers whether the file has the bytes of one, no more and no fewer; where
/// it has not, a line says so. The buffer has room for one byte more, so that a longer file shows.
pub fn cells(rt: &(impl Files + Print), t: &mut [u16]) -> bool
    ensures { length t.new ≡ length t.old }
{
    let mut table = [0u8; 17673];
    let n = read(rt, b"jis.tab", &mut table);
    if n != 17672 {
        let _ = println!(rt; "jis.tab does not have 17672 bytes");
        return false;
    }
    jis_tab::numbers(&table[..n], t);
    true
}
