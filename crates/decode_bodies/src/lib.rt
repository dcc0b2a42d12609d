// Macro bodies: `run`, `run_macro`, and `graphic` and `char1` for the macro set, of decode.rs. They
// call each other through the bodies. The macros stay while bodies run, since no definition ends in
// one.
#![tactic(auto)]

ghost use Rattle.std.specs.Prelude.{◌≡◌, ℕ, ◌+◌, ◌<◌, List, length, drop, get_or};
ghost use Rattle.control.specs.Codes.{MACRO};
ghost use Rattle.reading.specs.Macros.{Run, run_macro, run_body, macro_cmd};
ghost use Rattle.reading.specs.Characters.{graphic, char1};
ghost use Rattle.reading.specs.Steps.{run};
ghost use Rattle.decode_state.specs.Promises.{over, MayTake, TookOver};
ghost use Rattle.decode_steps.specs.Promises.{StopsAt};
ghost use Rattle.decode_bodies.specs.Promises.{below, Body, Opens, Ran, RanStep, step_in};

use control::MACRO;
use decode_macros::Command;
use decode_state::{Core, Macros, Stepped};
use decode_steps::{Source, Stop, Stretched};
use issues::IssueKind;

/// What a reading is over while bodies run, lent: the cell table, the input, and the macros by code.
#[derive(Clone, Copy)]
pub struct Inputs<'a> {
    pub cells: &'a [u16],
    pub input: &'a [u8],
    pub macros: &'a Macros,
}

/// Where a body runs.
#[derive(Clone, Copy)]
pub struct Place {
    /// The body's place in the input; 0 for a built-in one, and for the input itself.
    pub base: u32,
    /// The offset that its issues carry: the outermost caller's.
    pub at: u32,
    /// How many bodies may still be opened.
    pub left: usize,
}

/// Runs a body one deeper, unless four are open or it charges too much.
#[cycle(char1_graphic_run_run_body_run_macro_turn)]
fn run_body<'a>(
    inputs: &Inputs<'a>,
    body: &[u8],
    p: Place,
    s: Core,
    text: &mut [u8],
    issues: &mut [u32],
) -> Core
    requires opens { Opens inputs.now.input.now inputs.now.macros.now p 1 s }
    requires body { Body body.now }
    ensures { Ran inputs.now.cells.now inputs.now.input.now 1 (λ g. run_body g p.left (below g p.left) body.now p.base p.at)
        (over s inputs.now.macros.now) text.old issues.old (over result inputs.now.macros.now) text.new
        issues.new }
{
    if p.left == 0 {
        return decode_characters::report(p.at, IssueKind::MacroLimit, s, issues);
    }
    let after = s.charged as usize + body.len();
    if after > inputs.input.len() * 64 + 4096 {
        return decode_characters::report(p.at, IssueKind::MacroLimit, s, issues);
    }
    if body.len() == 0 {
        return s;
    }
    let mut t = s;
    t.charged = after as u32;
    let deeper = Place {
        base: p.base,
        at: p.at,
        left: p.left - 1,
    };
    run(inputs, body, deeper, t, text, issues)
}

/// A macro character: the body that was defined, else the built-in one. §7.1.1.6, Table 7-18.
#[cycle(char1_graphic_run_run_body_run_macro_turn)]
pub fn run_macro<'a>(
    inputs: &Inputs<'a>,
    code: usize,
    p: Place,
    s: Core,
    text: &mut [u8],
    issues: &mut [u32],
) -> Core
    requires opens { Opens inputs.now.input.now inputs.now.macros.now p 1 s }
    requires code_bound { code < 128 }
    ensures { Ran inputs.now.cells.now inputs.now.input.now 1 (λ g. run_macro g p.left (below g p.left) code p.at)
        (over s inputs.now.macros.now) text.old issues.old (over result inputs.now.macros.now) text.new
        issues.new }
{
    let start = inputs.macros.starts[code] as usize;
    if start > 0 {
        let end = start + inputs.macros.lens[code] as usize;
        let q = Place {
            base: start as u32,
            at: p.at,
            left: p.left,
        };
        return run_body(inputs, &inputs.input[start..end], q, s, text, issues);
    }
    let mut body = [0u8; 19];
    let n = decode_macros::default_macro(&mut body, code);
    if n > 0 {
        let q = Place {
            base: 0,
            at: p.at,
            left: p.left,
        };
        run_body(inputs, &body[..n], q, s, text, issues)
    } else {
        decode_characters::report(p.at, IssueKind::UndefinedMacro(code as u8), s, issues)
    }
}

/// A character of the macro set: its macro runs. Those of the other sets are in
/// `decode_characters`.
#[cycle(char1_graphic_run_run_body_run_macro_turn)]
fn char1<'a>(
    inputs: &Inputs<'a>,
    c: u8,
    p: Place,
    s: Core,
    text: &mut [u8],
    issues: &mut [u32],
) -> Core
    requires opens { Opens inputs.now.input.now inputs.now.macros.now p 1 s }
    requires c_bound { c < 128 }
    ensures { Ran inputs.now.cells.now inputs.now.input.now 1 (λ g. char1 g p.left (below g p.left) 15 c p.at)
        (over s inputs.now.macros.now) text.old issues.old (over result inputs.now.macros.now) text.new
        issues.new }
{
    run_macro(inputs, c as usize, p, s, text, issues)
}

/// A character x through a code element that has the macro set, wherever it stands: a step of one byte.
#[cycle(char1_graphic_run_run_body_run_macro_turn)]
pub fn graphic<'a>(
    inputs: &Inputs<'a>,
    x: u8,
    p: Place,
    s: Core,
    text: &mut [u8],
    issues: &mut [u32],
) -> Core
    requires opens { Opens inputs.now.input.now inputs.now.macros.now p 1 s }
    ensures { (e : ℕ) (b : List ℕ) (i : ℕ) → get_or s.sets e 0 ≡ 15 → i < length b → get_or b i 0 ≡ x →
        RanStep inputs.now.cells.now inputs.now.input.now b i (λ g. graphic g p.left (below g p.left) e x (drop (i + 1) b) p.at)
        (over s inputs.now.macros.now) text.old issues.old 1 (over result inputs.now.macros.now)
        text.new issues.new }
{
    char1(inputs, x % 128, p, s, text, issues)
}

/// MACRO inside a body: no definition ends there, so it is cut or malformed.
fn macro_cmd(b: &[u8], i: usize, at: u32, s: Core, issues: &mut [u32]) -> Stepped
    requires i_in_bounds { (i < length b.now) × (get_or b.now i 0 ≡ MACRO) }
    requires body { Body b.now }
    requires may_take { MayTake 1 s }
    ensures { (left : ℕ) (R : Run) (place : ℕ) (cells t : List ℕ) → TookOver cells b.now i (λ g. macro_cmd g left R (drop (i + 1) b.now) place at)
        s t issues.old result t issues.new }
{
    match decode_macros::read_command(b, i) {
        Command::Cut => decode_reports::truncated(b, i, at, s, issues),
        Command::Malformed => {
            let r = decode_characters::report(at, IssueKind::MalformedControl(MACRO), s, issues);
            Stepped { used: 2, core: r }
        }
        Command::Ends => decode_reports::truncated(b, i, at, s, issues),
        Command::Defines {
            code: _,
            len: _,
            runs: _,
        } => decode_reports::truncated(b, i, at, s, issues),
    }
}

/// The step at which plain steps stopped. The stop is an argument beside f, since that of f may be none.
#[cycle(char1_graphic_run_run_body_run_macro_turn)]
fn turn<'a>(
    inputs: &Inputs<'a>,
    b: &[u8],
    f: Stretched,
    stop: Stop,
    p: Place,
    text: &mut [u8],
    issues: &mut [u32],
) -> Stepped
    requires opens { Opens inputs.now.input.now inputs.now.macros.now p 1 f.core }
    requires body { Body b.now }
    requires stops_at { StopsAt stop b.now f.at f.core }
    ensures { RanStep inputs.now.cells.now inputs.now.input.now b.now f.at (step_in b.now f.at p) (over f.core inputs.now.macros.now)
        text.old issues.old result.used (over result.core inputs.now.macros.now) text.new issues.new }
{
    let i = f.at;
    let s = f.core;
    match stop {
        Stop::Char(_) => {
            let core = graphic(inputs, b[i], p, s, text, issues);
            Stepped { used: 1, core }
        }
        Stop::Shifted(_) => {
            let core = graphic(inputs, b[i + 1], p, s, text, issues);
            Stepped { used: 2, core }
        }
        Stop::Macro => macro_cmd(b, i, p.at, s, issues),
    }
}

/// All steps of a body, up to an issue that ends the reading.
#[cycle(char1_graphic_run_run_body_run_macro_turn)]
fn run<'a>(
    inputs: &Inputs<'a>,
    b: &[u8],
    p: Place,
    core: Core,
    text: &mut [u8],
    issues: &mut [u32],
) -> Core
    requires opens { Opens inputs.now.input.now inputs.now.macros.now p (length b.now) core }
    requires body { Body b.now }
    ensures { Ran inputs.now.cells.now inputs.now.input.now (length b.now) (λ g. run g p.left b.now p.base (p.at + 1))
        (over core inputs.now.macros.now) text.old issues.old (over result inputs.now.macros.now) text.new
        issues.new }
{
    let mut s = core;
    let mut i: usize = 0;
    loop {
        let origin = p.at + 1;
        let o = Source {
            base: p.base,
            origin,
            to: b.len(),
        };
        let f = decode_steps::plain(inputs.cells, b, i, o, s, text, issues);
        let Some(stop) = f.stop else {
            return f.core;
        };
        let r = turn(inputs, b, f, stop, p, text, issues);
        if decode_state::ended(r.core.enough, r.core.out.issues) {
            return r.core;
        }
        i = f.at + r.used;
        s = r.core;
    }
}
