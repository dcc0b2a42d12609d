// The decoder's state: `Decoder` of decode.rs, by value. The specs say how it and the two lent
// buffers hold a state of the definition, and what a function that takes steps promises.
#![tactic(auto)]

ghost use Rattle.std.specs.Prelude.{◌≡◌, true, false, cond, eqb};
ghost use Rattle.decode_state.specs.Promises.{start_of, undefined, Ends};

use decode_output::Out;

/// What every step can change.
#[derive(Clone, Copy)]
pub struct Core {
    /// The sets in G0 to G3, by 01's numbers.
    pub sets: [u8; 4],
    /// The code elements in GL and GR.
    pub gl: u8,
    pub gr: u8,
    /// Whether the size is Small, Middle or SZX 60.
    pub narrow: bool,
    /// Whether the width option is AnnexE.
    pub annex: bool,
    /// As many issues end the reading.
    pub enough: u32,
    /// The sum of the lengths of the bodies that ran.
    pub charged: u32,
    /// What was written and waits.
    pub out: Out,
}

/// The macros' bodies by code: each one's start in the input (0: none) and its length. 01 asks for two arrays of 128, passed
/// in and handed back by value, where an array of a struct would be plainer ("Where each form goes").
#[derive(Clone, Copy)]
pub struct Macros {
    pub starts: [u16; 128],
    pub lens: [u16; 128],
}

/// The whole state, with the macros' bodies by code.
#[derive(Clone, Copy)]
pub struct Decoder {
    pub core: Core,
    pub macros: Macros,
}

/// After a step: the bytes it took.
#[derive(Clone, Copy)]
pub struct Stepped {
    pub used: usize,
    pub core: Core,
}

/// After a run of steps: the place where it stopped. Not one type with `Stepped`: one number counts bytes and one is a
/// place, and a name for both would say neither.
#[derive(Clone, Copy)]
pub struct Far {
    pub at: usize,
    pub core: Core,
}

/// The set that G3 starts with. Part 3, Table 8-2; Katakana in SI. The options are 01's numbers here, not enums: `start`
/// is promised of any (`start_of`), while question 2, which admits 0 and 1 alone, stands in the calls of the C interface.
fn initial_g3(initial: u32) -> u8
    ensures { result ≡ cond (eqb initial 0) 3 15 }
{
    if initial == 0 { 3 } else { 15 }
}

/// More issues than an input can have: the reading goes to the end of its bytes.
pub const UNBOUNDED: u32 = 0xFFFFFFFF;

/// The state before the first byte, of a reading that so many issues end.
pub fn start(initial: u32, width: u32, enough: u32) -> Core
    ensures { result ≡ start_of initial width enough }
{
    Core {
        sets: [0, 1, 2, initial_g3(initial)],
        gl: 0,
        gr: 2,
        narrow: false,
        annex: width == 1,
        enough,
        charged: 0,
        out: decode_output::start(),
    }
}

/// No macro is defined.
pub fn undefined(core: Core) -> Decoder
    ensures { result ≡ undefined core }
{
    Decoder {
        core,
        macros: Macros {
            starts: [0; 128],
            lens: [0; 128],
        },
    }
}

/// Whether a reading is over before the end of its bytes: it has enough issues.
pub fn ended(enough: u32, issues: u32) -> bool
    ensures { (result ≡ true → Ends enough issues) × (result ≡ false → Ends enough issues → ⊥) }
{
    issues >= enough
}
