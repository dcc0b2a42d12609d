// Graphic characters: `graphic`, `char1` and `char2` of decode.rs, but for the macro set, whose characters run bodies.
// What a code reads as is in `decode_codes`. Sets are 01's numbers, codes are in GL form.
// The lent buffers go as parameters and not in a struct of references: each clause would say `lent.entry.text` for `text`.
#![tactic(auto)]

ghost use Rattle.std.specs.Prelude.{◌≡◌, true, ℕ, ◌+◌, ◌≤◌, ◌<◌, List, length, drop, get_or};
ghost use Rattle.reading.specs.State.{truncated};
ghost use Rattle.reading.specs.Macros.{Run};
ghost use Rattle.reading.specs.Characters.{is_graphic, char1, char2, graphic2, graphic_of, single_shift};
ghost use Rattle.decode_state.specs.Promises.{MayTake, TookOver};
ghost use Rattle.decode_characters.specs.Promises.{Did};

use decode_state::{Core, Stepped};
use issues::IssueKind;

/// The byte of a body at which a character or a control begins.
#[derive(Clone, Copy)]
pub struct At {
    /// Its place in the body.
    pub i: usize,
    /// The offset that its issues carry.
    pub at: u32,
}

/// A code of a two-byte set.
#[derive(Clone, Copy)]
struct Code2 {
    set: u8,
    a: u8,
    b: u8,
}

/// A character of a two-byte set.
fn char2(cells: &[u16], c: Code2, at: u32, s: Core, text: &mut [u8], issues: &mut [u32]) -> Core
    requires may_take { MayTake 1 s }
    requires le_a { (0x21 ≤ c.a) × (c.a ≤ 0x7E) × (0x21 ≤ c.b) × (c.b ≤ 0x7E) }
    ensures { Did cells.now (λ g. char2 g c.set c.a c.b at) s text.old issues.old result text.new issues.new }
{
    let cell = decode_codes::cell_at(cells, c.set, c.a - 0x20, c.b - 0x20);
    let kind = decode_codes::issue_of(c.set, c.a, c.b);
    decode_characters::cell_or(cell, kind, at, s, text, issues)
}

/// A character of a one-byte set.
fn char1(set: u8, c: u8, at: u32, s: Core, text: &mut [u8], issues: &mut [u32]) -> Core
    requires may_take { MayTake 1 s }
    requires c_bound { (c < 128) × (set ≡ 15 → ⊥) }
    ensures { (cells : List ℕ) (left : ℕ) (R : Run) → Did cells (λ g. char1 g left R set c at) s text.old issues.old result text.new
        issues.new }
{
    match set {
        4..=7 => decode_characters::report_mosaic(set, c, at, s, issues),
        17..=255 => decode_characters::report_placeholder(
            at,
            IssueKind::Drcs {
                n: set - 16,
                code: c as u16,
            },
            s,
            text,
            issues,
        ),
        _ => {
            let narrow = decode_codes::is_narrow(s.annex, s.narrow);
            let letter = decode_codes::letter_at(narrow, set, c);
            let code = c as u16;
            decode_characters::emit_or(
                letter,
                IssueKind::UndefinedCode { set, code },
                at,
                s,
                text,
                issues,
            )
        }
    }
}

/// Truncated, and one byte is used.
fn truncated(at: u32, s: Core, issues: &mut [u32]) -> Stepped
    requires { MayTake 1 s }
    ensures { (cells b t : List ℕ) (i : ℕ) → i < length b → TookOver cells b i (λ g. truncated 1 at) s t issues.old result t issues.new }
{
    Stepped {
        used: 1,
        core: decode_characters::report(at, IssueKind::Truncated, s, issues),
    }
}

/// A character of a two-byte set that begins at a place: its second byte is in the same area, or it is none.
fn graphic2(
    cells: &[u16],
    b: &[u8],
    p: At,
    set: u8,
    s: Core,
    text: &mut [u8],
    issues: &mut [u32],
) -> Stepped
    requires may_take { MayTake 1 s }
    requires i_in_bounds { (p.i < length b.now) × (is_graphic (get_or b.now p.i 0) ≡ true) }
    ensures { TookOver cells.now b.now p.i (λ g. graphic2 g set (get_or b.now p.i 0) (drop (p.i + 1) b.now) p.at) s
        text.old issues.old result text.new issues.new }
{
    let i = p.i;
    if i + 1 < b.len() && decode_codes::is_second(b[i], b[i + 1]) {
        let c = Code2 {
            set,
            a: b[i] % 128,
            b: b[i + 1] % 128,
        };
        return Stepped {
            used: 2,
            core: char2(cells, c, p.at, s, text, issues),
        };
    }
    truncated(p.at, s, issues)
}

/// The character that begins at a place, of a set other than the macro set.
pub fn graphic(
    cells: &[u16],
    b: &[u8],
    p: At,
    set: u8,
    s: Core,
    text: &mut [u8],
    issues: &mut [u32],
) -> Stepped
    requires may_take { MayTake 1 s }
    requires i_in_bounds { (p.i < length b.now) × (is_graphic (get_or b.now p.i 0) ≡ true) × (set ≡ 15 → ⊥) }
    ensures { (left : ℕ) (R : Run) → TookOver cells.now b.now p.i
        (λ g. graphic_of g left R set (get_or b.now p.i 0) (drop (p.i + 1) b.now) p.at) s text.old issues.old result text.new
        issues.new }
{
    if decode_codes::two_bytes(set) {
        return graphic2(cells, b, p, set, s, text, issues);
    }
    Stepped {
        used: 1,
        core: char1(set, b[p.i] % 128, p.at, s, text, issues),
    }
}

/// SS2 or SS3 at a place: one character of G2 or G3. Table 7-1.
pub fn single_shift(
    cells: &[u16],
    b: &[u8],
    p: At,
    element: usize,
    s: Core,
    text: &mut [u8],
    issues: &mut [u32],
) -> Stepped
    requires may_take { MayTake 1 s }
    requires i_in_bounds { (p.i < length b.now) × (element < 4) × (p.i + 1 < length b.now → is_graphic (get_or b.now (p.i + 1) 0) ≡ true → get_or s.sets element 0 ≡ 15 → ⊥) }
    ensures { (left : ℕ) (R : Run) → TookOver cells.now b.now p.i (λ g. single_shift g left R element (drop (p.i + 1) b.now) p.at) s
        text.old issues.old result text.new issues.new }
{
    let i = p.i + 1;
    if i >= b.len() {
        return truncated(p.at, s, issues);
    }
    if decode_codes::is_graphic(b[i]) {
        let next = At { i, ..p };
        let w = graphic(cells, b, next, s.sets[element], s, text, issues);
        return Stepped {
            used: w.used + 1,
            ..w
        };
    }
    Stepped {
        used: 1,
        core: decode_characters::report(p.at, IssueKind::LoneSingleShift, s, issues),
    }
}
