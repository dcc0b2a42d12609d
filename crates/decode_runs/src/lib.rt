// Runs of characters and controls that are read as they stand: the decoder's innermost loops. They are `run`, `graphic`,
// `char1` and `char2` of decode.rs where neither a repeat nor a mark waits, over numbers alone. They stop where they like:
// what they leave is read step by step.
#![tactic(auto)]

ghost use Rattle.std.specs.Prelude.{◌≡◌, Bool, true, false, ℕ, ◌+◌, ◌-◌, ◌*◌, ◌^◌, ◌≤◌, ◌<◌, List, length};
ghost use Rattle.std.proofs.lemmas.List.Edits.{sets};
ghost use Rattle.utf8.specs.Utf8.{utf8};
ghost use Rattle.decode_state.specs.Promises.{MayTake, Stretch};
ghost use Rattle.decode_settings.specs.Promises.{Settings};
ghost use Rattle.decode_runs.specs.Promises.{Space, with_text, Letters, Behind, core_at, RunsTo, Begins};

use decode_letters::{Invoked, Taken};
use decode_output::Out;
use decode_settings::{GL, GR, NARROW};
use decode_state::{Core, Far};
use tables::Cell;

/// A place in the input, the bytes of text that there are then, and how many of its characters are private-use.
#[derive(Clone, Copy)]
struct Reached {
    at: usize,
    len: usize,
    private_use: u32,
}

/// How far a run of characters goes: before the byte `to`, and whether what it writes fits.
#[derive(Clone, Copy)]
struct Limit {
    to: usize,
    fits: bool,
}

/// The bytes of a character of the Kanji set.
const KANJI: usize = 2;

/// The bytes of text of the yen sign, the one letter of two.
const YEN: usize = 2;

/// Writes a character of three bytes where it fits, and answers how many it takes. Behind the end of the text it is counted.
fn wide<const FITS: bool>(text: &mut [u8], at: usize, c: u32) -> usize
    requires fits { (FITS ≡ true → at + 3 ≤ length text.old) × (FITS ≡ false → length text.old ≤ at) }
    requires c_bound { (0x800 ≤ c) × (c < 0x10000) }
    ensures bytes { text.new ≡ sets text.old at (utf8 c) }
    ensures count { result ≡ length (utf8 c) }
{
    if FITS {
        decode_letters::put3(text, at, c);
    }
    3
}

/// The same of a character of one byte.
fn ascii<const FITS: bool>(text: &mut [u8], at: usize, c: u32) -> usize
    requires fits { (FITS ≡ true → at + 1 ≤ length text.old) × (FITS ≡ false → length text.old ≤ at) }
    requires c_bound { c < 0x80 }
    ensures bytes { text.new ≡ sets text.old at (utf8 c) }
    ensures count { result ≡ length (utf8 c) }
{
    if FITS {
        text[at] = c as u8;
    }
    1
}

/// A run of ideographs, kana and ASCII before the byte `to`, of which none is private-use. It is written where it fits, and
/// behind the end of the text it is counted, there with the yen sign.
fn run_from<const FITS: bool>(
    cells: &[u16],
    b: &[u8],
    from: Reached,
    to: usize,
    sets: Invoked,
    text: &mut [u8],
) -> Reached
    requires at_in_bounds { (from.at ≤ length b.now) × (to ≤ length b.now) × (8836 ≤ length cells.now) }
    requires space { Space FITS from.len (to - from.at) (length text.old) }
    ensures run { Letters cells.now b.now to from.at sets from.len from.private_use text.old result.at result.len
        result.private_use text.new }
    ensures room { Space FITS result.len (to - result.at) (length text.new) }
{
    let mut i = from.at;
    let mut m = from.len;
    while i < to {
        let x = b[i];
        let set = sets.set_of(x);
        if set == 0 {
            let Some(kanji) = decode_letters::kanji_at(cells, b, i) else {
                break;
            };
            m += wide::<FITS>(text, m, kanji);
            i += KANJI;
            continue;
        }
        let Some(letter) = decode_letters::initial_at(sets.narrow, set, x % 128) else {
            break;
        };
        if letter >= 0x800 {
            m += wide::<FITS>(text, m, letter);
        } else if letter < 0x80 {
            m += ascii::<FITS>(text, m, letter);
        } else if FITS {
            break;
        } else {
            m += YEN;
        }
        i += 1;
    }
    Reached {
        at: i,
        len: m,
        ..from
    }
}

/// Such a run, written or counted.
fn run(
    cells: &[u16],
    b: &[u8],
    from: Reached,
    to: usize,
    fits: bool,
    sets: Invoked,
    text: &mut [u8],
) -> Reached
    requires at_in_bounds { (from.at ≤ length b.now) × (to ≤ length b.now) × (8836 ≤ length cells.now) }
    requires space { Space fits from.len (to - from.at) (length text.old) }
    ensures run { Letters cells.now b.now to from.at sets from.len from.private_use text.old result.at result.len
        result.private_use text.new }
    ensures room { Space fits result.len (to - result.at) (length text.new) }
{
    if fits {
        return run_from::<true>(cells, b, from, to, sets, text);
    }
    run_from::<false>(cells, b, from, to, sets, text)
}

/// A character behind what was read, of which so many are private-use: 1 or 0.
fn behind(from: Reached, c: u32, used: usize, private_use: u32, text: &mut [u8]) -> Reached
    requires { (from.at + used < 2 ^ 63) × (from.len < 2 ^ 63) × (from.private_use + private_use ≤ 0xFFFFFFFF) }
    ensures { Behind from c used private_use text.old result text.new }
{
    Reached {
        at: from.at + used,
        len: from.len + utf8::put(text, from.len, c),
        private_use: from.private_use + private_use,
    }
}

/// A character that `run_from` leaves, if there is one.
fn other(
    cells: &[u16],
    b: &[u8],
    from: Reached,
    to: usize,
    sets: Invoked,
    text: &mut [u8],
) -> Reached
    requires at_in_bounds { (from.at ≤ length b.now) × (to ≤ length b.now) × (from.private_use + 3 * (to - from.at) ≤ 0xFFFFFFFF) }
    requires len_bound { from.len + 3 * (to - from.at) < 2 ^ 63 }
    ensures run { Letters cells.now b.now to from.at sets from.len from.private_use text.old result.at result.len
        result.private_use text.new }
    ensures room { (fits : Bool) → Space fits from.len (to - from.at) (length text.old) → Space fits result.len (to - result.at) (length text.new) }
{
    if from.at >= to {
        return from;
    }
    let Taken { cell, used } = decode_letters::character(cells, b, from.at, to, sets);
    match cell {
        Cell::Char(c) => behind(from, c, used, 0, text),
        Cell::PrivateUse(c) => behind(from, c, used, 1, text),
        Cell::Undefined => from,
    }
}

/// Characters and controls that begin before the byte `end`, the characters before the byte `to`: there they surely fit, or
/// surely do not. One function for both, so that all that it calls is inlined: as two, by a constant parameter, it took 14 per
/// cent more instructions.
fn runs_to(
    cells: &[u16],
    b: &[u8],
    from: Reached,
    to: usize,
    fits: bool,
    end: usize,
    annex: bool,
    settings: &mut [u8],
    text: &mut [u8],
) -> Reached
    requires at_le_end { (from.at ≤ end) × (to ≤ end) × (end ≤ length b.now) × (8836 ≤ length cells.now) × Settings settings.old }
    requires few { from.private_use + 3 * (length b.now - from.at) ≤ 0xFFFFFFFF }
    requires space { Space fits from.len (to - from.at) (length text.old) }
    ensures { RunsTo cells.now b.now end from.at annex settings.old from.len from.private_use text.old result.at
        settings.new result.len result.private_use text.new }
{
    let mut reached = from;
    loop {
        let left = settings[GL] as usize;
        let right = settings[GR] as usize;
        let sets = Invoked {
            gl: settings[left],
            gr: settings[right],
            narrow: decode_codes::is_narrow(annex, settings[NARROW] == 1),
        };
        let plain = run(cells, b, reached, to, fits, sets, text);
        let more = other(cells, b, plain, to, sets, text);
        let at = decode_settings::controls(b, more.at, end, settings);
        reached = Reached { at, ..more };
        if at == plain.at {
            return reached;
        }
    }
}

/// How far characters are read before the byte `end` of a text with room for so many bytes: as many surely fit as have three
/// bytes each in the rest of the text; where the text is at its end nothing does, and they are counted.
fn limit_of(from: Reached, end: usize, room: usize) -> Limit
    requires { (from.at ≤ end) × (from.len + 3 * (end - from.at) ≤ 0x10000000000) }
    ensures { (result.to ≤ end) × Space result.fits from.len (result.to - from.at) room }
{
    if from.len < room {
        let fit = (room - from.len) / 3;
        return Limit {
            to: from.at + fit.min(end - from.at),
            fits: true,
        };
    }
    Limit {
        to: end,
        fits: false,
    }
}

/// Characters and controls that begin before the byte `end`. There is one call of `runs_to`, so that it is compiled into
/// this: with two, for what fits and for what is counted, it is a call for each body of a macro.
fn runs_from(
    cells: &[u16],
    b: &[u8],
    from: Reached,
    end: usize,
    annex: bool,
    settings: &mut [u8],
    text: &mut [u8],
) -> Reached
    requires at_le_end { (from.at ≤ end) × (end ≤ length b.now) × (8836 ≤ length cells.now) × Settings settings.old }
    requires at_bound { (from.len + 3 * (length b.now - from.at) ≤ 0x10000000000) × (from.private_use + 3 * (length b.now - from.at) ≤ 0xFFFFFFFF) }
    ensures { RunsTo cells.now b.now end from.at annex settings.old from.len from.private_use text.old result.at
        settings.new result.len result.private_use text.new }
{
    let Limit { to, fits } = limit_of(from, end, text.len());
    runs_to(cells, b, from, to, fits, end, annex, settings, text)
}

/// Whether a run may begin: nothing waits, and the table has its cells.
fn may_begin(out: Out, cells: usize) -> bool
    ensures { result ≡ true → Begins out cells }
{
    out.repeat as u64 + out.first as u64 == 0 && out.len == out.end && cells >= 8836
}

/// The settings that controls change.
fn settings_of(s: Core) -> [u8; 7]
    requires { (s.gl < 4) × (s.gr < 4) }
    ensures settings { Settings result }
    ensures same { (n p : ℕ) → core_at result n p s ≡ with_text s n p }
{
    let [g0, g1, g2, g3] = s.sets;
    [g0, g1, g2, g3, s.gl, s.gr, s.narrow as u8]
}

/// The state with these settings, where `len` bytes are written, so many characters are private-use and nothing waits.
fn with_settings(s: Core, settings: [u8; 7], len: usize, private_use: u32) -> Core
    ensures { result ≡ core_at settings len private_use s }
{
    Core {
        sets: [settings[0], settings[1], settings[2], settings[3]],
        gl: settings[GL],
        gr: settings[GR],
        narrow: settings[NARROW] == 1,
        out: Out {
            len,
            end: len,
            first: 0,
            repeat: 0,
            private_use,
            ..s.out
        },
        ..s
    }
}

/// A run of characters and controls from the byte `from` on, which begin before the byte `to`.
pub fn letters(cells: &[u16], b: &[u8], from: usize, to: usize, s: Core, text: &mut [u8]) -> Far
    requires from_in_bounds { (from ≤ length b.now) × (to ≤ length b.now) × (length b.now ≤ 65535) }
    requires may_take { MayTake (length b.now - from) s }
    ensures { (base origin : ℕ) (i : List ℕ) → Stretch cells.now base origin b.now to from s text.old i result.at result.core text.new i }
{
    let out = s.out;
    if from >= to || !may_begin(out, cells.len()) {
        return Far { at: from, core: s };
    }
    let start = Reached {
        at: from,
        len: out.len,
        private_use: out.private_use,
    };
    let mut settings = settings_of(s);
    let w = runs_from(cells, b, start, to, s.annex, &mut settings, text);
    Far {
        at: w.at,
        core: with_settings(s, settings, w.len, w.private_use),
    }
}
