// What the control or escape of decode.rs at the byte `b[i]` is, of those that write no text and concern no macro: its
// effect, and how many bytes it takes. `decode_reports` and `decode_settings` take the step.
//
// ARIB STD-B24 volume 1 part 2, 7.1: Tables 7-1 and 7-2 (escapes), 7-15 to 7-17 (controls).
#![tactic(auto)]

ghost use Rattle.std.specs.Prelude.{◌≡◌, ◌&&◌, List, [], ◌∷◌, ℕ, ◌+◌, ◌-◌, ◌≤◌, ◌<◌, leb, length, take, drop, get_or};
ghost use Rattle.control.specs.Codes.{ESC};
ghost use Rattle.sets.specs.Sets.{is_narrow, from_designation, to_element};
ghost use Rattle.reading.specs.State.{Given, State, Step, took, truncated, invoke_gl, resize};
ghost use Rattle.reading.specs.Macros.{Run};
ghost use Rattle.reading.specs.Controls.{
  leading,
  locking_shift,
  designated,
  applied,
  escape,
  szx,
  rpc,
  colour,
  sequence_from,
  csi,
  time,
  fixed,
};
ghost use Rattle.reading.specs.Steps.{step};
ghost use Rattle.decode_controls.specs.Controls.{Reads, Begins, Means, second};

use control::{CDC, COL, CSI, ESC, LS0, LS1, MSZ, NSZ, RPC, SSZ, SZX, TIME};
use sets::{CharSize, GraphicSet, Shift};

/// What a control does.
#[derive(Clone, Copy, Debug, PartialEq, Eq)]
pub enum Effect {
    /// Nothing that a text shows.
    Nothing,
    /// The code element is invoked in GL.
    Gl(u8),
    /// In GR.
    Gr(u8),
    /// The set with a number is designated to a code element.
    Designates { element: u8, set: u8 },
    /// The size becomes narrow, or not.
    Narrow(bool),
    /// RPC's count, 0 for the rest of the line.
    Repeat(u8),
    /// The body ends inside it, and all that is left of it is used.
    Truncated,
    /// MalformedControl, of this code.
    Malformed(u8),
    /// An escape that Tables 7-1 to 7-3 do not list.
    UnknownEscape,
    /// A code that the tables leave blank.
    Undefined(u8),
}

/// A control that was read.
#[derive(Clone, Copy, Debug, PartialEq, Eq)]
pub struct Control {
    pub effect: Effect,
    /// The bytes that it takes.
    pub used: usize,
}

/// The body ends inside the control.
fn cut(b: &[u8], i: usize) -> Control
    requires { i < length b.now }
    ensures { (f : ℕ → ℕ → State → Step) → ((place at : ℕ) (s : State) → f place at s ≡ truncated (length b.now - i) at s) → Reads f b.now i result }
{
    Control {
        effect: Effect::Truncated,
        used: b.len() - i,
    }
}

/// The place of the first byte from `from` on that does not lie from 02/0 to `high`.
fn leading(b: &[u8], from: usize, high: u8) -> usize
    requires { from ≤ length b.now }
    ensures { result ≡ from + leading 0x20 high (drop from b.now) }
{
    for j in from..b.len() {
        let leads = is_between(b[j], 0x20, high);
        if !leads {
            return j;
        }
    }
    b.len()
}

/// Whether a byte lies from `low` to `high`.
fn is_between(x: u8, low: u8, high: u8) -> bool
    ensures { result ≡ (leb low x && leb x high) }
{
    (low..=high).contains(&x)
}

/// Whether a byte ends a sequence: `low` to 07/14.
fn is_final(f: u8, low: u8) -> bool
    ensures { result ≡ (leb low f && leb f 0x7E) }
{
    is_between(f, low, 0x7E)
}

/// The locking shifts that begin with ESC, by the byte behind it. Table 7-1.
fn locking_shift(f: u8) -> Effect
    ensures { Means (locking_shift f) result }
{
    match [ESC, f] {
        seq if Shift::Ls2.is(&seq) => Effect::Gl(2),
        seq if Shift::Ls3.is(&seq) => Effect::Gl(3),
        seq if Shift::Ls1r.is(&seq) => Effect::Gr(1),
        seq if Shift::Ls2r.is(&seq) => Effect::Gr(2),
        seq if Shift::Ls3r.is(&seq) => Effect::Gr(3),
        _ => Effect::UnknownEscape,
    }
}

/// The designation, to an element, of the set that a form and a final byte select. Table 7-3.
fn designate(element: u8, two_byte: bool, drcs: bool, f: u8) -> Effect
    requires { element < 4 }
    ensures { Means (designated (to_element element (from_designation two_byte drcs f))) result }
{
    match GraphicSet::from_designation(two_byte, drcs, f) {
        Some(set) => Effect::Designates {
            element,
            set: set.number() as u8,
        },
        None => Effect::UnknownEscape,
    }
}

/// One intermediate: ESC 02/8+n F, a one-byte set, and ESC 02/4 F, a two-byte set to G0. Table 7-2.
fn designation1(a: u8, f: u8) -> Effect
    ensures { Means (applied (a ∷ f ∷ [])) result }
{
    match a {
        0x24 => designate(0, true, false, f),
        0x28..=0x2B => designate(a - 0x28, false, false, f),
        _ => Effect::UnknownEscape,
    }
}

/// Two: ESC 02/8+n 02/0 F, a one-byte DRCS, and ESC 02/4 02/8+n F, a two-byte set to G1, G2 or G3. Table 7-2.
fn designation2(a: u8, g: u8, f: u8) -> Effect
    ensures { Means (applied (a ∷ g ∷ f ∷ [])) result }
{
    match (a, g) {
        (0x24, 0x29..=0x2B) => designate(g - 0x28, true, false, f),
        (0x28..=0x2B, 0x20) => designate(a - 0x28, false, true, f),
        _ => Effect::UnknownEscape,
    }
}

/// Three: ESC 02/4 02/8+n 02/0 F, the two-byte DRCS. Table 7-2.
fn designation3(a: u8, g: u8, d: u8, f: u8) -> Effect
    ensures { Means (applied (a ∷ g ∷ d ∷ f ∷ [])) result }
{
    match (a, g, d) {
        (0x24, 0x28..=0x2B, 0x20) => designate(g - 0x28, true, true, f),
        _ => Effect::UnknownEscape,
    }
}

/// What the bytes behind ESC do, the final byte among them. Tables 7-1 and 7-2.
fn escape_at(bytes: &[u8]) -> Effect
    ensures { Means (applied bytes.now) result }
{
    match bytes {
        [f] => locking_shift(*f),
        [a, f] => designation1(*a, *f),
        [a, g, f] => designation2(*a, *g, *f),
        [a, g, d, f] => designation3(*a, *g, *d, *f),
        _ => Effect::UnknownEscape,
    }
}

/// ESC: intermediates from 02/0 to 02/15 and a final byte from 03/0 to 07/14, ISO/IEC 2022. Tables 7-1 and 7-2.
pub fn escape(b: &[u8], i: usize) -> Control
    requires { (i < length b.now) × (get_or b.now i 0 ≡ ESC) }
    ensures { Reads (escape (drop (i + 1) b.now)) b.now i result }
{
    let j = leading(b, i + 1, 0x2F);
    if b.len() <= j {
        return cut(b, i);
    }
    if is_final(b[j], 0x30) {
        return Control {
            effect: escape_at(&b[i + 1..j + 1]),
            used: j + 1 - i,
        };
    }
    Control {
        effect: Effect::UnknownEscape,
        used: j - i,
    }
}

/// LS0 and LS1. Table 7-1.
pub fn invoke(element: u8) -> Control
    requires { element < 4 }
    ensures { (b : List ℕ) (i : ℕ) → i < length b → Reads (λ place at s. took 1 (invoke_gl element s)) b i result }
{
    Control {
        effect: Effect::Gl(element),
        used: 1,
    }
}

/// SSZ, MSZ and NSZ: a character size is selected. Table 7-16.
pub fn size(size: CharSize) -> Control
    ensures { (b : List ℕ) (i : ℕ) → i < length b → Reads (λ place at s. took 1 (resize (is_narrow size) s)) b i result }
{
    Control {
        effect: Effect::Narrow(size.is_narrow()),
        used: 1,
    }
}

/// SZX and its parameter. Table 7-16.
pub fn szx(b: &[u8], i: usize) -> Control
    requires { i < length b.now }
    ensures { Reads (λ place. szx (drop (i + 1) b.now)) b.now i result }
{
    if b.len() <= i + 1 {
        return cut(b, i);
    }
    let size = CharSize::Szx(b[i + 1]);
    Control {
        effect: Effect::Narrow(size.is_narrow()),
        used: 2,
    }
}

/// RPC and its parameter, whose low six bits are the count. Table 7-16.
fn rpc(b: &[u8], i: usize) -> Control
    requires { i < length b.now }
    ensures { Reads (λ place. rpc (drop (i + 1) b.now)) b.now i result }
{
    if b.len() <= i + 1 {
        return cut(b, i);
    }
    Control {
        effect: Effect::Repeat(b[i + 1] % 64),
        used: 2,
    }
}

/// A second parameter follows the first: three bytes are used.
fn second(b: &[u8], i: usize) -> Control
    requires { i + 1 < length b.now }
    ensures { Reads (λ place. second (drop (i + 2) b.now)) b.now i result }
{
    if i + 2 < b.len() {
        return Control {
            effect: Effect::Nothing,
            used: 3,
        };
    }
    cut(b, i)
}

/// COL and CDC: a parameter, or 02/0 and one more. Table 7-16.
pub fn colour(b: &[u8], i: usize) -> Control
    requires { i < length b.now }
    ensures { Reads (λ place. colour (drop (i + 1) b.now)) b.now i result }
{
    if b.len() <= i + 1 {
        return cut(b, i);
    }
    if b[i + 1] == 0x20 {
        return second(b, i);
    }
    Control {
        effect: Effect::Nothing,
        used: 2,
    }
}

/// Parameters and intermediates from 02/0 to 03/15 from `from` on, and a final byte from 04/0 to 07/14. Another byte
/// ends the sequence and is not used; `strict` says whether that is reported: `sequence_end` of decode.rs.
fn sequence(b: &[u8], i: usize, from: usize, strict: bool, code: u8) -> Control
    requires { (i < from) × (from ≤ length b.now) }
    ensures { Reads (λ place. sequence_from strict code (from - i) (drop from b.now)) b.now i result }
{
    let j = leading(b, from, 0x3F);
    if b.len() <= j {
        return cut(b, i);
    }
    if is_final(b[j], 0x40) {
        return Control {
            effect: Effect::Nothing,
            used: j + 1 - i,
        };
    }
    if strict {
        return Control {
            effect: Effect::Malformed(code),
            used: j - i,
        };
    }
    Control {
        effect: Effect::Nothing,
        used: j - i,
    }
}

/// CSI. Table 7-17.
pub fn csi(b: &[u8], i: usize) -> Control
    requires { i < length b.now }
    ensures { Reads (λ place. csi (drop (i + 1) b.now)) b.now i result }
{
    sequence(b, i, i + 1, true, CSI)
}

/// TIME: 02/0 or 02/8 and a parameter, or 02/9 and a sequence. Table 7-16.
pub fn time(b: &[u8], i: usize) -> Control
    requires { i < length b.now }
    ensures { Reads (λ place. time (drop (i + 1) b.now)) b.now i result }
{
    if b.len() <= i + 1 {
        return cut(b, i);
    }
    match b[i + 1] {
        0x20 | 0x28 => second(b, i),
        0x29 => sequence(b, i, i + 2, false, TIME),
        _ => Control {
            effect: Effect::Malformed(TIME),
            used: 2,
        },
    }
}

/// A control with a fixed number of parameters, or a code that the tables leave blank. Tables 7-14 to 7-16.
pub fn fixed(b: &[u8], i: usize) -> Control
    requires { i < length b.now }
    ensures { Reads (λ place. fixed (get_or b.now i 0) (drop (i + 1) b.now)) b.now i result }
{
    let x = b[i];
    match control::fixed_params(x) {
        Some(n) if n < b.len() - i => Control {
            effect: Effect::Nothing,
            used: n + 1,
        },
        Some(_) => cut(b, i),
        None => Control {
            effect: Effect::Undefined(x),
            used: 1,
        },
    }
}

/// The control at the byte `i`.
pub fn read(b: &[u8], i: usize) -> Control
    requires { (i < length b.now) × Begins (get_or b.now i 0) }
    ensures { (g : Given) (left : ℕ) (R : Run) → Reads (step g left R (get_or b.now i 0) (drop (i + 1) b.now)) b.now i result }
{
    match b[i] {
        LS0 => invoke(0),
        LS1 => invoke(1),
        ESC => escape(b, i),
        SSZ => size(CharSize::Small),
        MSZ => size(CharSize::Middle),
        NSZ => size(CharSize::Normal),
        SZX => szx(b, i),
        COL | CDC => colour(b, i),
        CSI => csi(b, i),
        TIME => time(b, i),
        RPC => rpc(b, i),
        _ => fixed(b, i),
    }
}
