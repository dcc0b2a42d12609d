// A character written, and an issue reported: `emit`, `issue` and `placeholder` of decode.rs, over `Core`.
#![tactic(auto)]

ghost use Rattle.std.specs.Prelude.{ℕ, ◌≡◌, false, List, IfSome};
ghost use Rattle.private_use.specs.PrivateUse.{is_private_use};
ghost use Rattle.tables.specs.Kanji.{CellReads, Classed};
ghost use Rattle.tables_onebyte.specs.OneByte.{OneByteReads};
ghost use Rattle.decode_output.specs.Output.{emit};
ghost use Rattle.reading.specs.State.{issue, placeholder, writes};
ghost use Rattle.reading.specs.Characters.{emit_or, cell_or, mosaic};
ghost use Rattle.decode_state.specs.Promises.{MayTake};
ghost use Rattle.decode_characters.specs.Promises.{Did};

use decode_output::Out;
use decode_state::Core;
use issues::IssueKind;
use tables::Cell;

/// An issue.
pub fn report(at: u32, kind: IssueKind, s: Core, issues: &mut [u32]) -> Core
    requires { MayTake 1 s }
    ensures { (cells t : List ℕ) → Did cells (λ g. issue at kind) s t issues.old result t issues.new }
{
    Core {
        out: decode_output::issue(s.out, at, kind, issues),
        ..s
    }
}

/// An issue, with U+FFFD in the character's place.
pub fn report_placeholder(
    at: u32,
    kind: IssueKind,
    s: Core,
    text: &mut [u8],
    issues: &mut [u32],
) -> Core
    requires { MayTake 1 s }
    ensures { (cells : List ℕ) → Did cells (λ g. placeholder at kind) s text.old issues.old result text.new issues.new }
{
    let out = decode_output::issue(s.out, at, kind, issues);
    Core {
        out: decode_output::emit(out, 0xFFFD, text),
        ..s
    }
}

/// An ordinary character.
fn show(c: u32, s: Core, text: &mut [u8]) -> Core
    requires may_take { MayTake 1 s }
    requires c_value { is_private_use c ≡ false }
    ensures { (cells i : List ℕ) → Did cells (λ g. writes (emit c)) s text.old i result text.new i }
{
    Core {
        out: decode_output::emit(s.out, c, text),
        ..s
    }
}

/// A mosaic character: nothing is written, and a waiting repeat is gone. Table 7-8.
pub fn report_mosaic(set: u8, c: u8, at: u32, s: Core, issues: &mut [u32]) -> Core
    requires { MayTake 1 s }
    ensures { (cells t : List ℕ) → Did cells (λ g. mosaic set c at) s t issues.old result t issues.new }
{
    let kind = IssueKind::Mosaic { set, code: c };
    Core {
        out: Out {
            repeat: 0,
            ..decode_output::issue(s.out, at, kind, issues)
        },
        ..s
    }
}

/// The letter of a code, where it has one.
pub fn emit_or(
    letter: Option<u32>,
    kind: IssueKind,
    at: u32,
    s: Core,
    text: &mut [u8],
    issues: &mut [u32],
) -> Core
    requires may_take { MayTake 1 s }
    requires c_value { IfSome letter (λ c. is_private_use c ≡ false) }
    ensures { (cells : List ℕ) (x : ℕ) → OneByteReads letter x → Did cells (λ g. emit_or kind x at) s text.old issues.old result text.new
        issues.new }
{
    match letter {
        Some(c) => show(c, s, text),
        None => report_placeholder(at, kind, s, text, issues),
    }
}

/// What a cell reads as: a mark waits, another character is written, and counted where it is private-use.
pub fn cell_or(
    cell: Cell,
    kind: IssueKind,
    at: u32,
    s: Core,
    text: &mut [u8],
    issues: &mut [u32],
) -> Core
    requires may_take { MayTake 1 s }
    requires classed { Classed cell }
    ensures { (cells : List ℕ) (x : ℕ) → CellReads cell x → Did cells (λ g. cell_or kind x at) s text.old issues.old result text.new
        issues.new }
{
    match cell {
        Cell::Char(c) if tables::is_non_spacing(c).mark => Core {
            out: decode_output::mark(s.out, c, at, text),
            ..s
        },
        Cell::Char(c) => show(c, s, text),
        Cell::PrivateUse(c) => Core {
            out: decode_output::emit_private_use(s.out, c, text),
            ..s
        },
        Cell::Undefined => report_placeholder(at, kind, s, text, issues),
    }
}
