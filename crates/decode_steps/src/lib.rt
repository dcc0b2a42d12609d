// Steps that concern no macro. They are taken outside the cycle, so that plain text costs no
// calls through it.
#![tactic(auto)]

ghost use Rattle.std.specs.Prelude.{◌≡◌, ℕ, ◌+◌, ◌-◌, ◌≤◌, ◌<◌, true, List, length, drop, get_or};
ghost use Rattle.reading.specs.Characters.{is_graphic, graphic_of};
ghost use Rattle.reading.specs.Macros.{Run};
ghost use Rattle.reading.specs.State.{took, writes};
ghost use Rattle.reading.specs.Steps.{step, offset, space};
ghost use Rattle.decode_output.specs.Output.{newline};
ghost use Rattle.decode_state.specs.Promises.{MayTake, TookOver};
ghost use Rattle.decode_steps.specs.Promises.{CharOf, ShiftOf, Verdict, Passes, Plain};

use control::{APR, MACRO, SP, SS2, SS3};
use decode_graphic::At;
use decode_state::{Core, Stepped};

/// What stops a run of steps that concern no macro. The specs speak of the code elements; without
/// the two numbers the steps cost some four instructions more.
#[derive(Clone, Copy, Debug, PartialEq, Eq)]
pub enum Stop {
    /// At MACRO.
    Macro,
    /// At a character of the macro set, in this code element.
    Char(usize),
    /// At a single shift with a character of the macro set behind it, in this code element.
    Shifted(usize),
}

/// After such a run. Nothing stops it where it comes to the byte up to which steps are taken, or to an issue that ends the
/// reading.
#[derive(Clone, Copy)]
pub struct Stretched {
    pub at: usize,
    pub stop: Option<Stop>,
    pub core: Core,
}

/// Where the bytes of a body stand, and how far its steps are taken.
#[derive(Clone, Copy)]
pub struct Source {
    /// The body's place in the input; 0 for a built-in one, and for the input itself.
    pub base: u32,
    /// 0 for the input; for a body one more than the offset that its issues carry.
    pub origin: u32,
    /// Steps are taken that begin before this byte.
    pub to: usize,
}

/// The macro set, by 01's number.
const MACRO_SET: u8 = 15;

/// The offset to report at the byte i of a body: its own (origin 0), or the outermost caller's.
fn offset(origin: u32, i: usize) -> u32
    requires { i < 65536 }
    ensures { result ≡ offset origin i }
{
    if origin == 0 { i as u32 } else { origin - 1 }
}

/// What stops plain steps at a single shift: the macro set in its element e, and a character behind
/// it.
fn stop_shift(b: &[u8], i: usize, s: Core, e: usize) -> Option<Stop>
    requires { (i < length b.now) × (e < 4) × ShiftOf (get_or b.now i 0) e }
    ensures { Verdict result b.now i s }
{
    let sets = s.sets;
    if sets[e] != MACRO_SET {
        return None;
    }
    if i + 1 >= b.len() {
        return None;
    }
    if decode_codes::is_graphic(b[i + 1]) {
        Some(Stop::Shifted(e))
    } else {
        None
    }
}

/// What stops plain steps at a character of the code element e: the macro set there.
fn stop_char(x: u8, s: Core, e: usize) -> Option<Stop>
    requires { CharOf x e s }
    ensures { (b : List ℕ) (i : ℕ) → i < length b → get_or b i 0 ≡ x → Verdict result b i s }
{
    let sets = s.sets;
    if sets[e] != MACRO_SET {
        return None;
    }
    Some(Stop::Char(e))
}

/// What stops a run of plain steps at the byte i.
fn stop_at(b: &[u8], i: usize, s: Core) -> Option<Stop>
    requires { (i < length b.now) × (s.gl < 4) × (s.gr < 4) }
    ensures { Verdict result b.now i s }
{
    let x = b[i];
    match x {
        0x21..=0x7E => stop_char(x, s, s.gl as usize),
        0xA1..=0xFE => stop_char(x, s, s.gr as usize),
        SS2 => stop_shift(b, i, s, 2),
        SS3 => stop_shift(b, i, s, 3),
        MACRO => Some(Stop::Macro),
        _ => None,
    }
}

/// SP. Table 7-14, Annex E.4.
fn space(s: Core, text: &mut [u8]) -> Stepped
    requires { MayTake 1 s }
    ensures { (cells b i₁ : List ℕ) (i : ℕ) → i < length b → TookOver cells b i (λ g s. took 1 (space g s)) s text.old i₁ result text.new i₁ }
{
    let c = if decode_codes::is_narrow(s.annex, s.narrow) {
        0x20
    } else {
        0x3000
    };
    let o = decode_output::emit(s.out, c, text);
    let mut r = s;
    r.out = o;
    Stepped { used: 1, core: r }
}

/// APR. Table 7-15.
fn newline(s: Core, text: &mut [u8], issues: &mut [u32]) -> Stepped
    requires { MayTake 1 s }
    ensures { (cells b : List ℕ) (i : ℕ) → i < length b → TookOver cells b i (λ g s. took 1 (writes newline s)) s text.old issues.old result
        text.new issues.new }
{
    let o = decode_output::newline(s.out, text, issues);
    let mut r = s;
    r.out = o;
    Stepped { used: 1, core: r }
}

/// A character of the set in the code element e, which is not the macro set.
fn graphic(
    cells: &[u16],
    b: &[u8],
    p: At,
    e: usize,
    s: Core,
    text: &mut [u8],
    issues: &mut [u32],
) -> Stepped
    requires i_in_bounds { (p.i < length b.now) × (e < 4) × (is_graphic (get_or b.now p.i 0) ≡ true) × (get_or s.sets e 0 ≡ 15 → ⊥) }
    requires may_take { MayTake 1 s }
    ensures { (left : ℕ) (R : Run) → TookOver cells.now b.now p.i
        (λ g. graphic_of g left R (get_or s.sets e 0) (get_or b.now p.i 0) (drop (p.i + 1) b.now) p.at) s text.old issues.old result
        text.new issues.new }
{
    let sets = s.sets;
    decode_graphic::graphic(cells, b, p, sets[e], s, text, issues)
}

/// One step that concerns no macro.
fn simple(
    cells: &[u16],
    b: &[u8],
    p: At,
    place: u32,
    s: Core,
    text: &mut [u8],
    issues: &mut [u32],
) -> Stepped
    requires i_in_bounds { (p.i < length b.now) × (length b.now ≤ 65535) }
    requires may_take { MayTake 1 s }
    requires passes { Passes b.now p.i s }
    ensures { (left : ℕ) (R : Run) → TookOver cells.now b.now p.i
        (λ g. step g left R (get_or b.now p.i 0) (drop (p.i + 1) b.now) place p.at) s text.old issues.old result text.new
        issues.new }
{
    let i = p.i;
    let x = b[i];
    match x {
        0x21..=0x7E => graphic(cells, b, p, s.gl as usize, s, text, issues),
        0xA1..=0xFE => graphic(cells, b, p, s.gr as usize, s, text, issues),
        SP => space(s, text),
        APR => newline(s, text, issues),
        SS2 => decode_graphic::single_shift(cells, b, p, 2, s, text, issues),
        SS3 => decode_graphic::single_shift(cells, b, p, 3, s, text, issues),
        _ => decode_reports::control(b, i, place, p.at, s, issues),
    }
}

/// Plain steps from the byte `from` of a body as far as they are taken, or to what stops them.
pub fn steps(
    cells: &[u16],
    b: &[u8],
    from: usize,
    o: Source,
    core: Core,
    text: &mut [u8],
    issues: &mut [u32],
) -> Stretched
    requires from_in_bounds { (from ≤ length b.now) × (length b.now ≤ 65535) × (o.base ≤ 65535) × (o.to ≤ length b.now) }
    requires may_take { MayTake (length b.now - from) core }
    ensures { Plain cells.now o.base o.origin b.now o.to from core text.old issues.old result text.new issues.new }
{
    let mut s = core;
    let mut i = from;
    loop {
        let f = decode_runs::letters(cells, b, i, o.to, s, text);
        s = f.core;
        i = f.at;
        if i >= o.to {
            return Stretched {
                at: i,
                stop: None,
                core: s,
            };
        }
        let stop = stop_at(b, i, s);
        if stop.is_some() {
            return Stretched {
                at: i,
                stop,
                core: s,
            };
        }
        let at = offset(o.origin, i);
        let r = simple(cells, b, At { i, at }, o.base + i as u32, s, text, issues);
        s = r.core;
        i += r.used;
        if decode_state::ended(s.enough, s.out.issues) {
            return Stretched {
                at: i,
                stop: None,
                core: s,
            };
        }
    }
}

/// The same, where the first byte often stops them, as in a body that calls macros.
pub fn plain(
    cells: &[u16],
    b: &[u8],
    from: usize,
    o: Source,
    core: Core,
    text: &mut [u8],
    issues: &mut [u32],
) -> Stretched
    requires from_in_bounds { (from ≤ length b.now) × (length b.now ≤ 65535) × (o.base ≤ 65535) × (o.to ≤ length b.now) }
    requires may_take { MayTake (length b.now - from) core }
    ensures { Plain cells.now o.base o.origin b.now o.to from core text.old issues.old result text.new issues.new }
{
    if from >= o.to {
        return Stretched {
            at: from,
            stop: None,
            core,
        };
    }
    let stop = stop_at(b, from, core);
    if stop.is_some() {
        return Stretched {
            at: from,
            stop,
            core,
        };
    }
    steps(cells, b, from, o, core, text, issues)
}
