// The steps of controls that write no text and concern no macro, over the decoder's state, with what they report.
#![tactic(auto)]

ghost use Rattle.std.specs.Prelude.{List, ℕ, ◌+◌, ◌-◌, ◌≤◌, ◌<◌, length, drop, get_or};
ghost use Rattle.reading.specs.State.{Given, took, truncated, issue};
ghost use Rattle.reading.specs.Macros.{Run};
ghost use Rattle.reading.specs.Controls.{repeat_by};
ghost use Rattle.reading.specs.Steps.{step};
ghost use Rattle.decode_state.specs.Promises.{MayTake, Took};
ghost use Rattle.decode_controls.specs.Controls.{Begins, Bounded, step_of};
ghost use Rattle.decode_reports.specs.Promises.{Reported, Moved};

use decode_controls::Effect;
use decode_state::{Core, Stepped};
use issues::IssueKind;

/// Reports an issue at `at`.
fn issue(s: Core, at: u32, kind: IssueKind, issues: &mut [u32]) -> Core
    requires { MayTake 1 s }
    ensures { (t : List ℕ) → Reported at kind s t issues.old result issues.new }
{
    let out = s.out;
    let after = decode_output::issue(out, at, kind, issues);
    let mut core = s;
    core.out = after;
    core
}

/// A step of `used` bytes that reports an issue and does nothing else.
fn report(s: Core, at: u32, kind: IssueKind, used: usize, issues: &mut [u32]) -> Stepped
    requires { MayTake 1 s }
    ensures { (t : List ℕ) → Moved used (λ σ. took used (issue at kind σ)) s t issues.old result t issues.new }
{
    let core = issue(s, at, kind, issues);
    Stepped { used, core }
}

/// The body ended inside a code: all that is left of it is used.
pub fn truncated(b: &[u8], i: usize, at: u32, s: Core, issues: &mut [u32]) -> Stepped
    requires i_in_bounds { i < length b.now }
    requires may_take { MayTake 1 s }
    ensures { (t : List ℕ) → Took b.now i (truncated (length b.now - i) at) s t issues.old result t issues.new }
{
    report(s, at, IssueKind::Truncated, b.len() - i, issues)
}

/// RPC's count waits; 0 is reported, and then none does.
fn repeat(s: Core, n: u8, at: u32, used: usize, issues: &mut [u32]) -> Stepped
    requires n_bound { n < 64 }
    requires may_take { MayTake 1 s }
    ensures { (t : List ℕ) → Moved used (λ σ. took used (repeat_by n at σ)) s t issues.old result t issues.new }
{
    if n == 0 {
        let mut core = issue(s, at, IssueKind::RepeatToEndOfLine, issues);
        core.out.repeat = 0;
        return Stepped { used, core };
    }
    let count = n as u32;
    let mut core = s;
    core.out.repeat = count;
    Stepped { used, core }
}

/// An effect, for a step of `used` bytes from the place `start` of the input.
fn apply(effect: Effect, used: usize, start: u32, at: u32, s: Core, issues: &mut [u32]) -> Stepped
    requires bounded { Bounded effect × (used ≤ 65535) }
    requires may_take { MayTake 1 s }
    ensures { (t : List ℕ) → Moved used (step_of effect used start at) s t issues.old result t issues.new }
{
    let mut core = s;
    match effect {
        Effect::Nothing => Stepped { used, core },
        Effect::Gl(element) => {
            core.gl = element;
            Stepped { used, core }
        }
        Effect::Gr(element) => {
            core.gr = element;
            Stepped { used, core }
        }
        Effect::Designates { element, set } => {
            core.sets[element as usize] = set;
            Stepped { used, core }
        }
        Effect::Narrow(narrow) => {
            core.narrow = narrow;
            Stepped { used, core }
        }
        Effect::Repeat(n) => repeat(s, n, at, used, issues),
        Effect::Truncated => report(s, at, IssueKind::Truncated, used, issues),
        Effect::Malformed(code) => {
            report(s, at, IssueKind::MalformedControl(code), used, issues)
        }
        Effect::UnknownEscape => {
            let kind = IssueKind::UnknownEscape {
                start,
                len: used as u32,
            };
            report(s, at, kind, used, issues)
        }
        Effect::Undefined(code) => {
            report(s, at, IssueKind::UndefinedControl(code), used, issues)
        }
    }
}

/// The step of the control at the byte `i`, which stands at a place of the input.
pub fn control(b: &[u8], i: usize, place: u32, at: u32, s: Core, issues: &mut [u32]) -> Stepped
    requires i_in_bounds { (i < length b.now) × (length b.now ≤ 65535) × Begins (get_or b.now i 0) }
    requires may_take { MayTake 1 s }
    ensures { (g : Given) (left : ℕ) (R : Run) (t : List ℕ) →
        Took b.now i (step g left R (get_or b.now i 0) (drop (i + 1) b.now) place at) s t issues.old result t issues.new }
{
    let c = decode_controls::read(b, i);
    let effect = c.effect;
    apply(effect, c.used, place, at, s, issues)
}
