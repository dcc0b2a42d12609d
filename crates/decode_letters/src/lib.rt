// The character at a place of the input, where it is written as it stands: neither a repeat nor a mark waits, and it is
// no mark. From `graphic`, `char1` and `char2` of decode.rs, over numbers alone.
#![tactic(auto)]

ghost use Rattle.std.specs.Prelude.{◌≡◌, true, cond, ℕ, ◌+◌, ◌≤◌, ◌<◌, ltb, length, get_or, IfSome};
ghost use Rattle.std.proofs.lemmas.List.Edits.{sets};
ghost use Rattle.utf8.specs.Utf8.{utf8};
ghost use Rattle.tables.specs.Kanji.{CellReads};
ghost use Rattle.reading.specs.Characters.{is_graphic, letter};
ghost use Rattle.decode_letters.specs.Promises.{Spacing, PairReads, Ideograph, Takes};

use control::{APR, SP};
use tables::Cell;

/// The sets that are invoked in GL and GR, and whether alphanumerics and SP are narrow.
#[derive(Clone, Copy)]
pub struct Invoked {
    pub gl: u8,
    pub gr: u8,
    pub narrow: bool,
}

impl Invoked {
    /// The set in the area of the byte `x`.
    pub fn set_of(self, x: u8) -> u8
        ensures { result ≡ cond (ltb x 128) self.gl self.gr }
    {
        if x < 128 { self.gl } else { self.gr }
    }
}

/// A character, or none, and the bytes that it takes.
#[derive(Clone, Copy)]
pub struct Taken {
    pub cell: Cell,
    pub used: usize,
}

/// The character of the Kanji set at the bytes `i` and `i + 1`, of rows 3 to 84, which the lent table alone decides, from
/// U+3000 on and before the private-use ones.
#[inline(always)]
pub fn kanji_at(cells: &[u16], b: &[u8], i: usize) -> Option<u32>
    requires { (i < length b.now) × (8836 ≤ length cells.now) }
    ensures { IfSome result (Ideograph cells.now b.now i) }
{
    let x = b[i];
    let row = (x % 128) as usize;
    if !matches!(row, 0x23..=0x74) || i + 1 >= b.len() {
        return None;
    }
    let y = b[i + 1];
    let cell = (y % 128) as usize;
    if x / 128 != y / 128 || !matches!(cell, 0x21..=0x7E) {
        return None;
    }
    let c = cells[(row - 0x21) * 94 + (cell - 0x21)] as u32;
    matches!(c, 0x3000..=0xDFFF).then_some(c)
}

/// The letter of the alphanumeric, the hiragana or the katakana set, with which a reading begins; none of any other.
#[tactic(auto, unfolding(reading::specs::Characters::letter))]
#[inline(always)]
pub fn initial_at(narrow: bool, set: u8, c: u8) -> Option<u32>
    ensures { IfSome result (λ l. (l ≡ letter narrow set c) × (1 ≤ l)) }
{
    match set {
        1 => decode_codes::alphanumeric_at(narrow, c),
        2 => tables_onebyte::hiragana(c),
        3 => tables_onebyte::katakana(c),
        _ => None,
    }
}

/// Writes a character of three bytes, where they fit.
pub fn put3(text: &mut [u8], at: usize, c: u32)
    requires { (at + 3 ≤ length text.old) × (0x800 ≤ c) × (c < 0x10000) }
    ensures { text.new ≡ sets text.old at (utf8 c) }
{
    text[at] = (0xE0 + c / 4096) as u8;
    text[at + 1] = (0x80 + c / 64 % 64) as u8;
    text[at + 2] = (0x80 + c % 64) as u8;
}

/// What a cell reads as, none for a mark.
#[tactic(auto, using(tables::proofs::MarkLaws::tested, tables::proofs::Cases::private_some, tables::proofs::Cases::private_spacing))]
fn spacing(cell: Cell) -> Cell
    ensures { (x : ℕ) → CellReads cell x → Spacing x result }
{
    match cell {
        Cell::Char(c) if tables::is_non_spacing(c).mark => Cell::Undefined,
        other => other,
    }
}

/// The character of a two-byte set at the bytes `i` and `i + 1`, before the byte `to`; none for a mark.
fn pair_at(cells: &[u16], b: &[u8], i: usize, to: usize, set: u8) -> Cell
    requires { (i < to) × (to ≤ length b.now) × (is_graphic (get_or b.now i 0) ≡ true) }
    ensures { PairReads cells.now b.now i to set result }
{
    if i + 1 < to && decode_codes::is_second(b[i], b[i + 1]) {
        let row = b[i] % 128 - 0x20;
        let cell = b[i + 1] % 128 - 0x20;
        return spacing(decode_codes::cell_at(cells, set, row, cell));
    }
    Cell::Undefined
}

/// The character of a set in GL or GR at the byte `i`.
fn graphic(cells: &[u16], b: &[u8], i: usize, to: usize, sets: Invoked) -> Taken
    requires { (i < to) × (to ≤ length b.now) × (is_graphic (get_or b.now i 0) ≡ true) }
    ensures { Takes cells.now b.now i to sets result.used result.cell }
{
    let x = b[i];
    let set = sets.set_of(x);
    if decode_codes::two_bytes(set) {
        return Taken {
            cell: pair_at(cells, b, i, to, set),
            used: 2,
        };
    }
    let cell = match decode_codes::letter_at(sets.narrow, set, x % 128) {
        Some(c) => Cell::Char(c),
        None => Cell::Undefined,
    };
    Taken { cell, used: 1 }
}

/// SP. Table 7-14, Annex E.4.
fn space(narrow: bool) -> u32
    ensures { result ≡ cond narrow 0x20 0x3000 }
{
    if narrow { 0x20 } else { 0x3000 }
}

/// The character at the byte `i`, SP and APR among them.
pub fn character(cells: &[u16], b: &[u8], i: usize, to: usize, sets: Invoked) -> Taken
    requires { (i < to) × (to ≤ length b.now) }
    ensures { Takes cells.now b.now i to sets result.used result.cell }
{
    match b[i] {
        SP => Taken {
            cell: Cell::Char(space(sets.narrow)),
            used: 1,
        },
        APR => Taken {
            cell: Cell::Char(0x0A),
            used: 1,
        },
        0x21..=0x7E | 0xA1..=0xFE => graphic(cells, b, i, to, sets),
        _ => Taken {
            cell: Cell::Undefined,
            used: 1,
        },
    }
}
