// What a code reads as: the character of a one-byte set, the cell of a two-byte set, and the issue where there is none.
// From `char1` and `char2` of decode.rs. Sets are 01's numbers, codes are in GL form.
#![tactic(auto)]

ghost use Rattle.std.specs.Prelude.{◌≡◌, ◌||◌, ◌&&◌, ℕ, ◌+◌, ◌*◌, ◌/◌, eqb, leb};
ghost use Rattle.sets.specs.Sets.{bytes_per_char};
ghost use Rattle.tables.specs.Kanji.{CellReads};
ghost use Rattle.tables_onebyte.specs.OneByte.{OneByteReads};
ghost use Rattle.reading.specs.Characters.{is_graphic, letter};
ghost use Rattle.decode_codes.specs.Codes.{cell_at, issue_of};

use issues::IssueKind;
use tables::Cell;

/// Whether a byte is in GL's area, 02/1 to 07/14, or in GR's, 10/1 to 15/14.
#[tactic(auto, unfolding(reading::specs::Characters::is_graphic))]
pub fn is_graphic(x: u8) -> bool
    ensures { result ≡ is_graphic x }
{
    matches!(x, 0x21..=0x7E | 0xA1..=0xFE)
}

/// Whether `y` can be the second byte of a character that begins with `x`: a graphic byte of the same area.
pub fn is_second(x: u8, y: u8) -> bool
    ensures { result ≡ (is_graphic y && eqb (x / 128) (y / 128)) }
{
    x / 128 == y / 128 && is_graphic(y)
}

/// Whether a set has two bytes a character. Table 7-3.
#[tactic(auto, unfolding(sets::specs::Sets::bytes_per_char))]
pub fn two_bytes(set: u8) -> bool
    ensures { result ≡ eqb (bytes_per_char set) 2 }
{
    matches!(set, 0 | 12..=14 | 16)
}

/// Whether alphanumerics and SP are narrow. Table 7-16, Annex E.4.
pub fn is_narrow(annex: bool, narrow: bool) -> bool
    ensures { result ≡ (annex || narrow) }
{
    annex || narrow
}

/// An alphanumeric, full-width unless narrow. Table 7-5. Whether it is narrow is tested first and not of
/// what the table answers, so that the loop of a run tests each letter's Option once.
pub fn alphanumeric_at(narrow: bool, c: u8) -> Option<u32>
    ensures { OneByteReads result (letter narrow 1 c) }
{
    if narrow {
        return tables_onebyte::alphanumeric(c);
    }
    tables_onebyte::alphanumeric(c).map(tables_onebyte::fullwidth)
}

/// The character of a one-byte set other than mosaic, macro and DRCS. Tables 7-5, 7-6, 7-7 and 7-9.
#[tactic(auto, unfolding(reading::specs::Characters::letter))]
pub fn letter_at(narrow: bool, set: u8, c: u8) -> Option<u32>
    ensures { OneByteReads result (letter narrow set c) }
{
    match set {
        1 | 8 => alphanumeric_at(narrow, c),
        2 | 9 => tables_onebyte::hiragana(c),
        3 | 10 => tables_onebyte::katakana(c),
        11 => tables_onebyte::jis_x0201_katakana(c),
        _ => None,
    }
}

/// The cell of a two-byte set at a row and a cell: of JIS compatible Kanji plane 1 the rows 1 to 84 are the Kanji set's.
/// 7.1.1.3, Tables 7-4, 7-10, 7-11.
#[tactic(auto, unfolding(crate::specs::Codes::cell_at))]
pub fn cell_at(cells: &[u16], set: u8, row: u8, cell: u8) -> Cell
    ensures { CellReads result (cell_at cells.now set row cell) }
{
    match set {
        0 => tables::kanji(cells, row, cell),
        12 if row <= 84 => tables::kanji(cells, row, cell),
        14 => tables::additional_symbols(row, cell),
        _ => Cell::Undefined,
    }
}

/// The two bytes of a code as 16 bits.
fn code_of(a: u8, b: u8) -> u16
    ensures { result ≡ a * 256 + b }
{
    u16::from_be_bytes([a, b])
}

/// The issue of a two-byte code that has no character.
#[tactic(auto, unfolding(crate::specs::Codes::issue_of))]
pub fn issue_of(set: u8, a: u8, b: u8) -> IssueKind
    ensures { result ≡ issue_of set (a * 256 + b) }
{
    let code = code_of(a, b);
    match set {
        0 | 14 => IssueKind::UndefinedCode { set, code },
        16 => IssueKind::Drcs { n: 0, code },
        _ => IssueKind::UnsupportedCode { set, code },
    }
}
