// Standard input and the file `jis.tab`.
#![tactic(auto)]

ghost use Rattle.std.specs.Prelude.{◌≡◌, ◌≤◌, length, take, IfSome, MatchResult};

use std::fs::File;
use std::io::{Error, ErrorKind, Read};
use std::rt::Files;
use std::str::from_utf8;

/// The words of an error's text, without the number that ends it.
fn words(text: &str) -> &str {
    match text.split_once(" (os error ") {
        Some((words, _)) => words,
        None => text,
    }
}

/// Says on standard error what failed and why.
pub fn fail(rt: &(impl Eprint + AllocGlobal), what: &[u8], why: Error) {
    let what = from_utf8(what).unwrap_or("input");
    let _ = match why.to_string(rt.alloc()) {
        Ok(text) => {
            let words = words(text.as_str());
            eprintln!(rt; "{what}: {words}")
        }
        Err(_) => eprintln!(rt; "{what}: {why}"),
    };
}

/// Why a read failed, and how many bytes stand at the start of the buffer by then.
#[derive(Debug, Drop)]
pub struct Failed {
    pub len: usize,
    pub why: Error,
}

/// Reads until the buffer is full or the input ends, in however many pieces it comes, and answers how many bytes stand at
/// the start of the buffer, also where a read fails.
pub fn read(reader: &mut impl Read, buffer: &mut [u8]) -> Result<usize, Failed>
    ensures within { MatchResult result (λ n. n ≤ length buffer.new) (λ e. e.len ≤ length buffer.new) }
    ensures prefix { MatchResult result (λ n. n ≡ length (take n buffer.new))
        (λ e. e.len ≡ length (take e.len buffer.new)) }
{
    let mut done = 0;
    while done < buffer.len() {
        let n = reader
            .read(&mut buffer[done..])
            .map_err(|why| Failed { len: done, why })?;
        if n == 0 {
            break;
        }
        done += n;
    }
    Ok(done)
}

/// Reads `jis.tab`, if there is one, and answers how many of its bytes stand at the start of a buffer. One that cannot be
/// opened or read counts as one of no bytes, which is refused, and not as one that is absent. That there is none, or why
/// it could not be read, goes to standard error.
pub fn read_table(rt: &(impl Files + Eprint + AllocGlobal), buffer: &mut [u8]) -> Option<usize>
    ensures within { IfSome result (λ n. n ≤ length buffer.new) }
    ensures prefix { IfSome result (λ n. n ≡ length (take n buffer.new)) }
{
    let mut opened = match File::open(rt, "jis.tab") {
        Ok(opened) => opened,
        Err(why) if why.kind() == ErrorKind::NotFound => {
            let _ = eprintln!(rt; "jis.tab: absent, so every kanji is undefined");
            return None;
        }
        Err(why) => {
            fail(rt, b"jis.tab", why);
            return Some(0);
        }
    };
    match read(&mut opened, buffer) {
        Ok(n) => Some(n),
        Err(failed) => {
            fail(rt, b"jis.tab", failed.why);
            Some(0)
        }
    }
}
