// Graphic sets, their final bytes, and the escape sequences that designate and invoke them in the eight-unit code.
//
// ARIB STD-B24 volume 1 part 2, 7.1.1: Table 7-1 (invocation), Table 7-2 (designation), Table 7-3 (sets and final bytes).
#![tactic(auto)]

ghost use Rattle.std.specs.Prelude.{◌≡◌, ◌≤◌, true, false, map, length, ◌%◌};
ghost use Rattle.sets.specs.Sets.{
  set_number,
  bytes_per_char,
  is_drcs_form,
  final_byte,
  designation,
  from_designation,
  designated,
  shift_bytes,
  shift_element,
  Compared,
  is_narrow,
  initial_number,
  initial_sets,
  initial_invocations,
};

use control::{ESC, LS0, LS1, SS2, SS3};
use std::marker::Model;

// A set has its number and its final byte, so `number` and `from_number` say which one is meant, as `From` would not.

/// A graphic set that can be designated to G0 .. G3: Table 7-3.
#[derive(Clone, Copy, Debug, PartialEq, Eq)]
pub enum GraphicSet {
    /// Table 7-4, two bytes a character, F = 04/2.
    Kanji,
    /// Table 7-5, F = 04/10.
    Alphanumeric,
    /// Table 7-7, F = 03/0.
    Hiragana,
    /// Table 7-6, F = 03/1.
    Katakana,
    /// Table 7-8 (1), F = 03/2.
    MosaicA,
    /// Table 7-8 (2), F = 03/3.
    MosaicB,
    /// Table 7-8 (3), non-spacing, F = 03/4.
    MosaicC,
    /// Table 7-8 (4), non-spacing, F = 03/5.
    MosaicD,
    /// Table 7-5, F = 03/6.
    ProportionalAlphanumeric,
    /// Table 7-7, F = 03/7.
    ProportionalHiragana,
    /// Table 7-6, F = 03/8.
    ProportionalKatakana,
    /// Table 7-9, F = 04/9.
    JisX0201Katakana,
    /// 7.1.1.3, two bytes, F = 03/9.
    JisKanjiPlane1,
    /// 7.1.1.3, two bytes, F = 03/10.
    JisKanjiPlane2,
    /// Tables 7-10 and 7-11, two bytes, F = 03/11.
    AdditionalSymbols,
    /// 7.1.1.5: DRCS-0, two bytes, and DRCS-1 to DRCS-15; F = 04/0 + n.
    Drcs(u8),
    /// 7.1.1.6: the macro set, in the DRCS form of Table 7-2, F = 07/0.
    Macro,
}

/// The sets 0 to 15 in the order of their numbers.
const SETS: [GraphicSet; 16] = [
    GraphicSet::Kanji,
    GraphicSet::Alphanumeric,
    GraphicSet::Hiragana,
    GraphicSet::Katakana,
    GraphicSet::MosaicA,
    GraphicSet::MosaicB,
    GraphicSet::MosaicC,
    GraphicSet::MosaicD,
    GraphicSet::ProportionalAlphanumeric,
    GraphicSet::ProportionalHiragana,
    GraphicSet::ProportionalKatakana,
    GraphicSet::JisX0201Katakana,
    GraphicSet::JisKanjiPlane1,
    GraphicSet::JisKanjiPlane2,
    GraphicSet::AdditionalSymbols,
    GraphicSet::Macro,
];

impl GraphicSet {
    /// The set's number: 0 to 14 in the order above, Macro 15, DRCS-n 16 + n.
    pub fn number(self) -> u32
        ensures { result ≡ set_number self }
    {
        match self {
            GraphicSet::Kanji => 0,
            GraphicSet::Alphanumeric => 1,
            GraphicSet::Hiragana => 2,
            GraphicSet::Katakana => 3,
            GraphicSet::MosaicA => 4,
            GraphicSet::MosaicB => 5,
            GraphicSet::MosaicC => 6,
            GraphicSet::MosaicD => 7,
            GraphicSet::ProportionalAlphanumeric => 8,
            GraphicSet::ProportionalHiragana => 9,
            GraphicSet::ProportionalKatakana => 10,
            GraphicSet::JisX0201Katakana => 11,
            GraphicSet::JisKanjiPlane1 => 12,
            GraphicSet::JisKanjiPlane2 => 13,
            GraphicSet::AdditionalSymbols => 14,
            GraphicSet::Drcs(n) => 16 + u32::from(n),
            GraphicSet::Macro => 15,
        }
    }

    /// The set that has the number n. Every byte is one: from 16 on, that of a DRCS.
    pub fn from_number(n: u8) -> GraphicSet
        ensures { set_number result ≡ n }
    {
        if n < 16 {
            SETS[usize::from(n)]
        } else {
            GraphicSet::Drcs(n - 16)
        }
    }

    /// Bytes a character, 2 or 1: Table 7-3, "Remarks".
    #[tactic(auto, unfolding(crate::specs::Sets::bytes_per_char))]
    pub fn bytes_per_char(self) -> usize
        ensures { result ≡ bytes_per_char (set_number self) }
    {
        match self {
            GraphicSet::Drcs(0)
            | GraphicSet::Kanji
            | GraphicSet::JisKanjiPlane1
            | GraphicSet::JisKanjiPlane2
            | GraphicSet::AdditionalSymbols => 2,
            _ => 1,
        }
    }

    /// Whether the set is designated in the DRCS form of Table 7-2, with 02/0 before F: the macro set and the DRCS.
    #[tactic(auto, unfolding(crate::specs::Sets::is_drcs_form))]
    pub fn is_drcs_form(self) -> bool
        ensures { result ≡ is_drcs_form (set_number self) }
    {
        matches!(self, GraphicSet::Drcs(_) | GraphicSet::Macro)
    }

    /// The final byte F of the set's designation: Table 7-3.
    #[tactic(auto, unfolding(crate::specs::Sets::final_byte))]
    pub fn final_byte(self) -> u8
        ensures { result ≡ final_byte (set_number self) }
    {
        match self {
            GraphicSet::Kanji => 0x42,
            GraphicSet::Alphanumeric => 0x4A,
            GraphicSet::Hiragana => 0x30,
            GraphicSet::Katakana => 0x31,
            GraphicSet::MosaicA => 0x32,
            GraphicSet::MosaicB => 0x33,
            GraphicSet::MosaicC => 0x34,
            GraphicSet::MosaicD => 0x35,
            GraphicSet::ProportionalAlphanumeric => 0x36,
            GraphicSet::ProportionalHiragana => 0x37,
            GraphicSet::ProportionalKatakana => 0x38,
            GraphicSet::JisX0201Katakana => 0x49,
            GraphicSet::JisKanjiPlane1 => 0x39,
            GraphicSet::JisKanjiPlane2 => 0x3A,
            GraphicSet::AdditionalSymbols => 0x3B,
            GraphicSet::Drcs(n) => 0x40 + n % 16,
            GraphicSet::Macro => 0x70,
        }
    }

    /// The set that a designation selects, by whether it was a two-byte one (ESC 02/4 ..), whether it had the DRCS form
    /// (.. 02/0 F), and F: Tables 7-2 and 7-3. None where Table 7-3 has no such set.
    pub fn from_designation(two_byte: bool, drcs: bool, f: u8) -> Option<GraphicSet>
        ensures { designated result ≡ from_designation two_byte drcs f }
    {
        match (two_byte, drcs) {
            (false, false) => one_byte_set(f),
            (true, false) => two_byte_set(f),
            (false, true) => one_byte_drcs(f),
            (true, true) => two_byte_drcs(f),
        }
    }

    /// The escape sequence that designates the set to Gn, n modulo 4: a row of Table 7-2 for each form.
    #[tactic(auto, unfolding(crate::specs::Sets::designation, crate::specs::Sets::sequence))]
    pub fn designation(self, n: u8) -> Sequence
        ensures { result ≡ designation (set_number self) (n % 4) }
    {
        let e = n % 4;
        let g = 0x28 + e;
        let f = self.final_byte();
        match (self.bytes_per_char(), self.is_drcs_form()) {
            (2, true) => Sequence {
                bytes: [ESC, 0x24, g, 0x20, f],
                len: 5,
            },
            (2, false) if e == 0 => Sequence {
                bytes: [ESC, 0x24, f, 0, 0],
                len: 3,
            },
            (2, false) => Sequence {
                bytes: [ESC, 0x24, g, f, 0],
                len: 4,
            },
            (_, true) => Sequence {
                bytes: [ESC, g, 0x20, f, 0],
                len: 4,
            },
            (_, false) => Sequence {
                bytes: [ESC, g, f, 0, 0],
                len: 3,
            },
        }
    }
}

/// A short byte string: the first `len` of `bytes`, and zeros after them.
#[derive(Clone, Copy, Debug, PartialEq, Eq)]
pub struct Sequence {
    bytes: [u8; 5],
    len: usize,
}

impl Model for Sequence {
    ghost use Rattle.std.specs.Prelude.{ℕ, ◌-◌, List, ◌++◌, length, take, replicate};
    ghost use Rattle.std.proofs.Common.{sym};

    ghost Value = { List ℕ };

    ghost use Rattle.sets.specs.Sets.{HoldsBytes};

    ghost view = { λ q. take q.len q.bytes };

    ghost invariant = { λ q. HoldsBytes q (take q.len q.bytes) };

    ghost inverse = { λ xs. record { bytes = xs ++ replicate (5 - length xs) 0; len = length xs } };

    ghost inverse_ok = { λ q h i. record { bytes = sym h.filled i; len = sym h.counted i } };
}

impl Sequence {
    /// The bytes, at most five.
    pub fn as_slice(&self) -> &[u8]
        ensures value { result.now ≡ self.now }
        ensures fits { length result.now ≤ 5 }
    {
        &self.bytes[..self.len]
    }
}

/// The one-byte sets that are not in the DRCS form: Table 7-3.
#[tactic(auto, unfolding(crate::specs::Sets::from_designation))]
fn one_byte_set(f: u8) -> Option<GraphicSet>
    ensures { designated result ≡ from_designation false false f }
{
    match f {
        0x4A => Some(GraphicSet::Alphanumeric),
        0x30 => Some(GraphicSet::Hiragana),
        0x31 => Some(GraphicSet::Katakana),
        0x32 => Some(GraphicSet::MosaicA),
        0x33 => Some(GraphicSet::MosaicB),
        0x34 => Some(GraphicSet::MosaicC),
        0x35 => Some(GraphicSet::MosaicD),
        0x36 => Some(GraphicSet::ProportionalAlphanumeric),
        0x37 => Some(GraphicSet::ProportionalHiragana),
        0x38 => Some(GraphicSet::ProportionalKatakana),
        0x49 => Some(GraphicSet::JisX0201Katakana),
        _ => None,
    }
}

/// The two-byte sets that are not in the DRCS form: Table 7-3.
#[tactic(auto, unfolding(crate::specs::Sets::from_designation))]
fn two_byte_set(f: u8) -> Option<GraphicSet>
    ensures { designated result ≡ from_designation true false f }
{
    match f {
        0x42 => Some(GraphicSet::Kanji),
        0x39 => Some(GraphicSet::JisKanjiPlane1),
        0x3A => Some(GraphicSet::JisKanjiPlane2),
        0x3B => Some(GraphicSet::AdditionalSymbols),
        _ => None,
    }
}

/// The one-byte sets in the DRCS form, DRCS-1 to DRCS-15 and the macro set: Table 7-3.
#[tactic(auto, unfolding(crate::specs::Sets::from_designation))]
fn one_byte_drcs(f: u8) -> Option<GraphicSet>
    ensures { designated result ≡ from_designation false true f }
{
    match f {
        0x41..=0x4F => Some(GraphicSet::Drcs(f - 0x40)),
        0x70 => Some(GraphicSet::Macro),
        _ => None,
    }
}

/// The two-byte set in the DRCS form, DRCS-0: Table 7-3.
#[tactic(auto, unfolding(crate::specs::Sets::from_designation))]
fn two_byte_drcs(f: u8) -> Option<GraphicSet>
    ensures { designated result ≡ from_designation true true f }
{
    if f == 0x40 {
        Some(GraphicSet::Drcs(0))
    } else {
        None
    }
}

/// Locking and single shifts: Table 7-1.
#[derive(Clone, Copy, Debug, PartialEq, Eq)]
pub enum Shift {
    /// LS0, 00/15: G0 to GL, locking.
    Ls0,
    /// LS1, 00/14: G1 to GL, locking.
    Ls1,
    /// LS2, ESC 06/14: G2 to GL, locking.
    Ls2,
    /// LS3, ESC 06/15: G3 to GL, locking.
    Ls3,
    /// LS1R, ESC 07/14: G1 to GR, locking.
    Ls1r,
    /// LS2R, ESC 07/13: G2 to GR, locking.
    Ls2r,
    /// LS3R, ESC 07/12: G3 to GR, locking.
    Ls3r,
    /// SS2, 01/9: G2 for one character.
    Ss2,
    /// SS3, 01/13: G3 for one character.
    Ss3,
}

impl Shift {
    /// The coded representation: Table 7-1.
    pub fn bytes(self) -> &'static [u8]
        ensures { result.now ≡ shift_bytes self }
    {
        match self {
            Shift::Ls0 => &[LS0],
            Shift::Ls1 => &[LS1],
            Shift::Ls2 => &[ESC, 0x6E],
            Shift::Ls3 => &[ESC, 0x6F],
            Shift::Ls1r => &[ESC, 0x7E],
            Shift::Ls2r => &[ESC, 0x7D],
            Shift::Ls3r => &[ESC, 0x7C],
            Shift::Ss2 => &[SS2],
            Shift::Ss3 => &[SS3],
        }
    }

    /// Whether `seq` is the coded representation of the shift.
    pub fn is(self, seq: &[u8]) -> bool
        ensures { Compared result seq.now (shift_bytes self) }
    {
        seq == self.bytes()
    }

    /// The code element, 0 to 3 for G0 to G3, that the shift invokes.
    pub fn element(self) -> u8
        ensures { result ≡ shift_element self }
    {
        match self {
            Shift::Ls0 => 0,
            Shift::Ls1 => 1,
            Shift::Ls2 => 2,
            Shift::Ls3 => 3,
            Shift::Ls1r => 1,
            Shift::Ls2r => 2,
            Shift::Ls3r => 3,
            Shift::Ss2 => 2,
            Shift::Ss3 => 3,
        }
    }
}

/// The character size that SSZ, MSZ, NSZ or SZX selects: Table 7-16.
#[derive(Clone, Copy, Debug, PartialEq, Eq)]
pub enum CharSize {
    /// SSZ, 08/8.
    Small,
    /// MSZ, 08/9: half width.
    Middle,
    /// NSZ, 08/10.
    Normal,
    /// SZX, 08/11, with its parameter: 06/0 tiny, 04/1 double height, 04/4 double width, 04/5 both, 06/11 and 06/4 special.
    Szx(u8),
}

impl CharSize {
    /// Whether the character field is narrower than a normal one: SSZ, MSZ and SZX tiny.
    pub fn is_narrow(self) -> bool
        ensures { result ≡ is_narrow self }
    {
        matches!(
            self,
            CharSize::Small | CharSize::Middle | CharSize::Szx(0x60)
        )
    }
}

/// What is designated and invoked before the first byte: for captions by part 3, Table 8-2, for SI with katakana in G3.
#[derive(Clone, Copy, Debug, PartialEq, Eq)]
pub enum InitialState {
    Si,
    Caption,
}

/// The code elements in GL and GR.
#[derive(Clone, Copy, Debug, PartialEq, Eq)]
pub struct Invocations {
    pub gl: u8,
    pub gr: u8,
}

impl InitialState {
    /// The sets of G0 to G3.
    pub fn designations(self) -> [GraphicSet; 4]
        ensures { map set_number result ≡ initial_sets (initial_number self) }
    {
        match self {
            InitialState::Si => [
                GraphicSet::Kanji,
                GraphicSet::Alphanumeric,
                GraphicSet::Hiragana,
                GraphicSet::Katakana,
            ],
            InitialState::Caption => [
                GraphicSet::Kanji,
                GraphicSet::Alphanumeric,
                GraphicSet::Hiragana,
                GraphicSet::Macro,
            ],
        }
    }

    /// G0 in GL and G2 in GR, in either state.
    pub fn invocations(self) -> Invocations
        ensures { result ≡ initial_invocations }
    {
        Invocations { gl: 0, gr: 2 }
    }
}
