// The steps of controls that write nothing and report nothing, over a reading's settings alone: seven numbers in a lent
// array, the sets in G0 to G3, the code elements in GL and GR, and 1 where the size is narrow, else 0. Each function
// takes the step at the byte `b[i]` and answers how many bytes it used, or none where it leaves the step to `decode_steps`:
// one that is cut, that reports, or that makes a character wait.
//
// The codes are told apart here as `decode_controls::read` does: called from two places it would be compiled apart from
// this loop, which is the innermost one.
#![tactic(auto)]

ghost use Rattle.std.specs.Prelude.{◌≡◌, List, ℕ, ◌+◌, ◌≤◌, ◌<◌, length, drop, get_or, set};
ghost use Rattle.reading.specs.State.{Given, State, Step};
ghost use Rattle.reading.specs.Macros.{Run};
ghost use Rattle.reading.specs.Steps.{step};
ghost use Rattle.decode_controls.specs.Controls.{element_of, Reads};
ghost use Rattle.decode_settings.specs.Promises.{Settings, Takes, Controls};

use control::{
    APR, BKF, CDC, COL, CSI, ESC, LS0, LS1, MACRO, MSZ, NSZ, RPC, SP, SS2, SS3, SSZ, SZX, TIME, WHF,
};
use decode_controls::{Control, Effect};
use sets::CharSize;

// One array and no struct: `with_settings`, of which decode_runs's promises speak, is stated of the list of the seven, and an
// element in GL or GR is an index into its first four.

/// Where the code elements in GL and GR stand among the settings, and the size.
pub const GL: usize = 4;

pub const GR: usize = 5;

pub const NARROW: usize = 6;

/// Sets one number, for a step of `used` bytes.
fn put(settings: &mut [u8], place: usize, x: u8, used: usize) -> Option<usize>
    requires { place < length settings.old }
    ensures { (result ≡ Some used) × (settings.new ≡ set settings.old place x) }
{
    settings[place] = x;
    Some(used)
}

/// What was read takes effect.
fn apply(c: Control, settings: &mut [u8]) -> Option<usize>
    requires { (element_of c.effect < 4) × Settings settings.old }
    ensures { (f : ℕ → ℕ → State → Step) (b : List ℕ) (i : ℕ) → Reads f b i c → (place at : ℕ) → Takes (f place at) b i settings.old result settings.new }
{
    let effect = c.effect;
    match effect {
        Effect::Nothing => Some(c.used),
        Effect::Gl(element) => put(settings, GL, element, c.used),
        Effect::Gr(element) => put(settings, GR, element, c.used),
        Effect::Designates { element, set } => put(settings, element as usize, set, c.used),
        Effect::Narrow(narrow) => put(settings, NARROW, narrow as u8, c.used),
        _ => None,
    }
}

/// One control. Characters, SP and APR write, single shifts read a character, and RPC makes one wait.
fn control(b: &[u8], i: usize, settings: &mut [u8]) -> Option<usize>
    requires { (i < length b.now) × Settings settings.old }
    ensures { (g : Given) (left : ℕ) (R : Run) (place at : ℕ) → Takes (step g left R (get_or b.now i 0) (drop (i + 1) b.now) place at)
        b.now i settings.old result settings.new }
{
    match b[i] {
        0x21..=0x7E => None,
        0xA1..=0xFE => None,
        BKF..=WHF => Some(1),
        LS0 => apply(decode_controls::invoke(0), settings),
        LS1 => apply(decode_controls::invoke(1), settings),
        ESC => apply(decode_controls::escape(b, i), settings),
        SSZ => apply(decode_controls::size(CharSize::Small), settings),
        MSZ => apply(decode_controls::size(CharSize::Middle), settings),
        NSZ => apply(decode_controls::size(CharSize::Normal), settings),
        SZX => apply(decode_controls::szx(b, i), settings),
        COL | CDC => apply(decode_controls::colour(b, i), settings),
        CSI => apply(decode_controls::csi(b, i), settings),
        TIME => apply(decode_controls::time(b, i), settings),
        SP | APR | SS2 | SS3 | RPC | MACRO => None,
        _ => apply(decode_controls::fixed(b, i), settings),
    }
}

/// Controls from the byte `from` on, as far as they begin before the byte `to`; answers where they end.
pub fn controls(b: &[u8], from: usize, to: usize, settings: &mut [u8]) -> usize
    requires { (from ≤ length b.now) × (to ≤ length b.now) × Settings settings.old }
    ensures { Controls b.now to from settings.old result settings.new }
{
    let mut i = from;
    while i < to {
        match control(b, i, settings) {
            Some(used) => i += used,
            None => return i,
        }
    }
    i
}
