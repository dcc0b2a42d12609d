// Steps outside every body. There alone macros are defined, so the decoder's struct with its two
// arrays goes in and comes back by value here, and is lent to the cycle.
#![tactic(auto)]

ghost use Rattle.std.specs.Prelude.{◌≡◌, ℕ, ◌+◌, ◌-◌, ◌≤◌, ◌<◌, length, drop, get_or, cond};
ghost use Rattle.reading.specs.Characters.{graphic};
ghost use Rattle.reading.specs.Macros.{run_macro, defined, macro_cmd};
ghost use Rattle.decode_macros.specs.Promises.{Defined};
ghost use Rattle.decode_steps.specs.Promises.{StopsAt};
ghost use Rattle.decode_bodies.specs.Promises.{below};
ghost use Rattle.decode_outer.specs.Promises.{Outside, Executed, OuterStep, defining, step_at, TopRan};

use control::MACRO;
use decode_bodies::{Inputs, Place};
use decode_macros::Command;
use decode_state::Decoder;
use decode_steps::{Source, Stop};
use issues::IssueKind;

/// What the steps are over, lent: the cell table and the input.
#[derive(Clone, Copy)]
struct Given<'a> {
    cells: &'a [u16],
    input: &'a [u8],
}

/// After steps outside every body, where macros are defined: the byte at which the next one begins, or the end.
#[derive(Clone, Copy)]
pub struct Reached {
    pub at: usize,
    pub decoder: Decoder,
}

/// How many bodies may be open at a time.
const MAX_MACRO_DEPTH: usize = 4;

/// The macro of `code` gets a body.
fn define(d: Decoder, code: usize, start: u16, len: u16) -> Decoder
    requires { code < 128 }
    ensures { result ≡ defining d code start len }
{
    let mut r = d;
    r.macros.starts[code] = start;
    r.macros.lens[code] = len;
    r
}

/// A character at the byte i, through a code element that has the macro set.
fn call<'a>(
    given: Given<'a>,
    i: usize,
    at: u32,
    d: Decoder,
    text: &mut [u8],
    issues: &mut [u32],
) -> Reached
    requires outside { Outside given.input.now 1 d }
    requires i_in_bounds { (i < length given.input.now) × (at < 65535) }
    ensures { (e : ℕ) → get_or d.core.sets e 0 ≡ 15 → OuterStep given.entry.cells.now given.entry.input.now i
        (λ g. graphic g 4 (below g 4) e (get_or given.entry.input.now i 0) (drop (i + 1) given.entry.input.now) at) d
        text.old issues.old result text.new issues.new }
{
    let inputs = Inputs {
        cells: given.cells,
        input: given.input,
        macros: &d.macros,
    };
    let p = Place {
        base: 0,
        at,
        left: MAX_MACRO_DEPTH,
    };
    let core = decode_bodies::graphic(&inputs, given.input[i], p, d.core, text, issues);
    Reached {
        at: i + 1,
        decoder: Decoder { core, ..d },
    }
}

/// The macro of `code` runs once.
fn execute<'a>(
    given: Given<'a>,
    code: usize,
    at: u32,
    d: Decoder,
    text: &mut [u8],
    issues: &mut [u32],
) -> Decoder
    requires outside { Outside given.input.now 1 d }
    requires code_bound { (code < 128) × (at < 65535) }
    ensures { Executed given.entry.cells.now given.entry.input.now (λ g. run_macro g 4 (below g 4) code at) d text.old issues.old
        result text.new issues.new }
{
    let inputs = Inputs {
        cells: given.cells,
        input: given.input,
        macros: &d.macros,
    };
    let p = Place {
        base: 0,
        at,
        left: MAX_MACRO_DEPTH,
    };
    let core = decode_bodies::run_macro(&inputs, code, p, d.core, text, issues);
    Decoder { core, ..d }
}

/// MACRO 40 or 41 at the byte i, with a body of `len` bytes. Code, length and whether it runs are three arguments, as
/// `Command::Defines` hands them over.
fn definition<'a>(
    given: Given<'a>,
    i: usize,
    code: usize,
    len: usize,
    runs: bool,
    d: Decoder,
    text: &mut [u8],
    issues: &mut [u32],
) -> Reached
    requires outside { Outside given.input.now 1 d }
    requires i_in_bounds { i < length given.input.now }
    requires defined { Defined code len given.input.now i }
    ensures { OuterStep given.entry.cells.now given.entry.input.now i (λ g. defined g 4 (below g 4) (cond runs 0x41 0x40) code len i i) d
        text.old issues.old result text.new issues.new }
{
    let defined = define(d, code, (i + 3) as u16, len as u16);
    if runs {
        return Reached {
            at: i + len + 5,
            decoder: execute(given, code, i as u32, defined, text, issues),
        };
    }
    Reached {
        at: i + len + 5,
        decoder: defined,
    }
}

/// MACRO at the byte i. Table 7-16.
fn macro_cmd<'a>(
    given: Given<'a>,
    i: usize,
    d: Decoder,
    text: &mut [u8],
    issues: &mut [u32],
) -> Reached
    requires outside { Outside given.input.now 1 d }
    requires i_in_bounds { i < length given.input.now }
    ensures { OuterStep given.entry.cells.now given.entry.input.now i
        (λ g. macro_cmd g 4 (below g 4) (drop (i + 1) given.entry.input.now) i i) d text.old
        issues.old result text.new issues.new }
{
    match decode_macros::read_command(given.input, i) {
        Command::Cut => {
            let r = decode_reports::truncated(given.input, i, i as u32, d.core, issues);
            let core = r.core;
            Reached {
                at: i + r.used,
                decoder: Decoder { core, ..d },
            }
        }
        Command::Ends => Reached {
            at: i + 2,
            decoder: d,
        },
        Command::Malformed => {
            let kind = IssueKind::MalformedControl(MACRO);
            let core = decode_characters::report(i as u32, kind, d.core, issues);
            Reached {
                at: i + 2,
                decoder: Decoder { core, ..d },
            }
        }
        Command::Defines { code, len, runs } => {
            definition(given, i, code, len, runs, d, text, issues)
        }
    }
}

/// The step at which plain steps stopped.
fn step<'a>(
    given: Given<'a>,
    i: usize,
    stop: Stop,
    d: Decoder,
    text: &mut [u8],
    issues: &mut [u32],
) -> Reached
    requires outside { Outside given.input.now 1 d }
    requires stops_at { StopsAt stop given.input.now i d.core }
    ensures { OuterStep given.entry.cells.now given.entry.input.now i (step_at given.entry.input.now i) d text.old issues.old result
        text.new issues.new }
{
    match stop {
        Stop::Macro => macro_cmd(given, i, d, text, issues),
        Stop::Char(_) => call(given, i, i as u32, d, text, issues),
        Stop::Shifted(_) => call(given, i + 1, i as u32, d, text, issues),
    }
}

/// The steps of the input from the byte `from`, up to the first that begins at the byte `to` or behind it, or to an issue
/// that ends the reading.
pub fn top(
    cells: &[u16],
    input: &[u8],
    from: usize,
    to: usize,
    start: Decoder,
    text: &mut [u8],
    issues: &mut [u32],
) -> Reached
    requires from_in_bounds { (from ≤ length input.now) × (to ≤ length input.now) }
    requires outside { Outside input.now (length input.now - from) start }
    ensures { TopRan cells.now input.now from to start text.old issues.old result text.new issues.new }
{
    let given = Given { cells, input };
    let mut d = start;
    let mut i = from;
    loop {
        let o = Source {
            base: 0,
            origin: 0,
            to,
        };
        let f = decode_steps::steps(cells, input, i, o, d.core, text, issues);
        let after = f.core;
        d.core = after;
        i = f.at;
        let Some(stop) = f.stop else {
            return Reached { at: i, decoder: d };
        };
        let next = step(given, i, stop, d, text, issues);
        let reached = next.decoder.core;
        if decode_state::ended(reached.enough, reached.out.issues) {
            return next;
        }
        i = next.at;
        d = next.decoder;
    }
}
