// Macro bodies: the built-in ones of Table 7-18 (`default_macro` of decode.rs), and the reading of MACRO,
// which defines one (`macro_cmd`).
#![tactic(auto)]

ghost use Rattle.std.specs.Prelude.{ℕ, ◌+◌, ◌-◌, ◌%◌, ◌≤◌, ◌<◌, ◌≡◌, cond, [], ◌∷◌, length, drop};
ghost use Rattle.lent.specs.Put.{Put};
ghost use Rattle.sets.specs.Sets.{designation};
ghost use Rattle.reading.specs.State.{Given, State};
ghost use Rattle.reading.specs.Macros.{Run, builtin_of, end_of, macro_cmd};
ghost use Rattle.reading.specs.Macros.{definition as defines};
ghost use Rattle.decode_macros.specs.Promises.{Built, commanded, Within};

use sets::GraphicSet;

/// Table 7-18, codes 60 to 6F: the sets that go to G0, G1 and G2, by 01's numbers. G3 is always the
/// macro set.
const BUILTIN: [[u8; 3]; 16] = [
    [0, 1, 2],
    [0, 3, 2],
    [0, 17, 2],
    [4, 6, 7],
    [4, 5, 7],
    [4, 17, 7],
    [17, 18, 19],
    [20, 21, 22],
    [23, 24, 25],
    [26, 27, 28],
    [29, 30, 31],
    [0, 18, 2],
    [0, 19, 2],
    [0, 20, 2],
    [3, 2, 1],
    [1, 4, 17],
];

/// The built-in body of a code: writes it to the front of `body`, which is as long as the longest, and
/// answers its length, 0 where the code has none. Table 7-18.
pub fn default_macro(body: &mut [u8], code: usize) -> usize
    requires { length body.old ≡ 19 }
    ensures { Built body.old code body.new result }
{
    match code {
        0x60..=0x6F => {
            let [g0, g1, g2] = BUILTIN[code - 0x60];
            put_body(body, g0, g1, g2)
        }
        _ => 0,
    }
}

/// Designates three sets to G0, G1 and G2 and the macro set to G3, then invokes by LS0 and LS2R: writes the
/// body to the front of `body` and answers its length.
fn put_body(body: &mut [u8], g0: u8, g1: u8, g2: u8) -> usize
    requires { length (builtin_of (g0 ∷ g1 ∷ g2 ∷ [])) ≤ length body.old }
    ensures { Put body.old 0 (builtin_of (g0 ∷ g1 ∷ g2 ∷ [])) body.new result }
{
    let mut n = put_designation(body, 0, g0, 0);
    n = put_designation(body, n, g1, 1);
    n = put_designation(body, n, g2, 2);
    n = put_designation(body, n, 15, 3);
    put_bytes(body, n, b"\x0F\x1B\x7D")
}

/// Designates the set of a number to Gn, n modulo 4, from `at` on: writes the sequence, and answers the place
/// behind it. Table 7-2.
fn put_designation(body: &mut [u8], at: usize, set: u8, n: u8) -> usize
    requires { at + length (designation set (n % 4)) ≤ length body.old }
    ensures { Put body.old at (designation set (n % 4)) body.new result }
{
    let sequence = GraphicSet::from_number(set).designation(n);
    put_bytes(body, at, sequence.as_slice())
}

/// Writes `s` from `at` on, and answers the place behind it.
fn put_bytes(body: &mut [u8], at: usize, s: &[u8]) -> usize
    requires { at + length s.now ≤ length body.old }
    ensures { Put body.old at s.now body.new result }
{
    let end = at + s.len();
    body[at..end].copy_from_slice(s);
    end
}

/// How far a definition's body goes from `from` on: to the first MACRO 4F, or to the end where none is.
pub fn body_end(b: &[u8], from: usize) -> usize
    requires { from ≤ length b.now }
    ensures { result ≡ from + end_of (drop from b.now) }
{
    // two bytes are held against the string, and not all that are left: so the test of their number falls away
    for j in from..b.len().saturating_sub(1) {
        let ends = b[j..j + 2].starts_with(b"\x95\x4F");
        if ends {
            return j;
        }
    }
    b.len()
}

/// What MACRO does, by the bytes behind it. Table 7-16.
#[derive(Clone, Copy, Debug, PartialEq, Eq)]
pub enum Command {
    /// The input, or a body, ends before it does.
    Cut,
    /// MACRO 4F outside a definition: nothing.
    Ends,
    /// Another parameter.
    Malformed,
    /// MACRO 40 or 41: the code's body has `len` bytes and begins three bytes behind MACRO; 41 also runs
    /// it once.
    Defines { code: usize, len: usize, runs: bool },
}

/// MACRO at the byte i of b.
pub fn read_command(b: &[u8], i: usize) -> Command
    requires { i < length b.now }
    ensures means { (g : Given) (left : ℕ) (R : Run) (place at : ℕ) (s : State) →
        macro_cmd g left R (drop (i + 1) b.now) place at s ≡ commanded result (length b.now - i) g left R place at s }
    ensures within { Within result b.now i }
{
    if i + 1 >= b.len() {
        return Command::Cut;
    }
    let p = b[i + 1];
    match p {
        0x4F => Command::Ends,
        0x40 => definition(b, i, false),
        0x41 => definition(b, i, true),
        _ => Command::Malformed,
    }
}

/// MACRO 40 or 41 at the byte i of b.
fn definition(b: &[u8], i: usize, runs: bool) -> Command
    requires { i + 1 < length b.now }
    ensures means { (g : Given) (left : ℕ) (R : Run) (place at : ℕ) (s : State) →
        defines g left R (cond runs 0x41 0x40) (drop (i + 2) b.now) place at s ≡ commanded result (length b.now - i) g left R place at s }
    ensures within { Within result b.now i }
{
    if i + 2 >= b.len() {
        return Command::Cut;
    }
    let code = (b[i + 2] % 128) as usize;
    let from = i + 3;
    let end = body_end(b, from);
    if end < b.len() {
        Command::Defines {
            code,
            len: end - from,
            runs,
        }
    } else {
        Command::Cut
    }
}
