// The candidate codes of a character: encode.rs, `candidates`. The reverse look-ups in the two-byte sets are given, so
// that they are done once a character.
#![tactic(auto)]

ghost use Rattle.std.specs.Prelude.{◌≡◌, cond, [], ◌++◌, ◌<◌, map, eqb, length};
ghost use Rattle.control.specs.Codes.{SP};
ghost use Rattle.tables_onebyte.specs.Reverse.{one_byte_reverse};
ghost use Rattle.tables.specs.Kanji.{place_value};
ghost use Rattle.coding.specs.Candidates.{narrow, wide, plain, of_code, fullwidth, letters, shortest};
ghost use Rattle.base.specs.Lists.{when};
ghost use Rattle.encode_states.specs.Packed.{set_of};
ghost use Rattle.encode_candidates.specs.Packed.{packed, size_of, cand, items, Adds, AddsCell, StandsFor, StandsForCandidates};

pub mod candidate;
pub mod coded;

pub use candidate::Cands;
use candidate::{Candidate, Size};
use coded::Coded;
use control::{APR, SP};
use tables_onebyte::OneByteTable;

/// A cell in one number, row × 256 + cell, 0 for none: the characters of a text are lent memory of fixed size, where an
/// `Option` of a pair would take more.
pub fn pack(place: Option<(u8, u8)>) -> u16
    ensures { result ≡ packed (place_value place) }
{
    match place {
        Some((row, cell)) => row as u16 * 256 + cell as u16,
        None => 0,
    }
}

/// The code of `c` in a one-byte table, where it has one, behind the candidates before.
fn with_code(k: &mut Cands, table: OneByteTable, c: u32, set: u8, size: Size)
    requires count_bound { length (items k.old) < 9 }
    requires set_bound { set < 6 }
    ensures { Adds (items k.old) (of_code (set_of set) (size_of size) (one_byte_reverse table c)) 1 (items k.new) }
{
    if let Some(code) = tables_onebyte::one_byte_reverse(table, c) {
        k.push(Candidate {
            set,
            code: code as u16,
            size,
        });
    }
}

/// A cell of a two-byte set, where there is one. Whatever its number, both bytes are below 128.
fn with_cell(k: &mut Cands, cell: u16, set: u8, size: Size)
    requires count_bound { length (items k.old) < 9 }
    requires set_bound { set < 6 }
    ensures { AddsCell (items k.old) set (size_of size) cell (items k.new) }
{
    if cell != 0 {
        let row = (cell / 256 + 0x20) % 128;
        let last = (cell % 256 + 0x20) % 128;
        k.push(Candidate {
            set,
            code: row * 256 + last,
            size,
        });
    }
}

/// The alphanumeric whose full-width form is `c`, in CharacterSize alone.
fn with_half(k: &mut Cands, c: u32, annex: bool)
    requires { length (items k.old) < 9 }
    ensures { Adds (items k.old) (fullwidth annex c) 1 (items k.new) }
{
    if !annex {
        with_code(k, OneByteTable::Fullwidth, c, 1, Size::Wide);
    }
}

/// SP, for U+0020 and, in CharacterSize, for U+3000.
fn with_space(k: &mut Cands, c: u32, annex: bool)
    requires { length (items k.old) < 9 }
    ensures { Adds (items k.old) (when (eqb c 0x20) (plain SP narrow) ++ cond annex [] (when (eqb c 0x3000) (plain SP wide))) 1 (items k.new) }
{
    if c == 0x20 {
        k.push(without_set(SP, Size::Narrow));
    } else if !annex && c == 0x3000 {
        k.push(without_set(SP, Size::Wide));
    }
}

/// SP or APR, which need no set.
fn without_set(byte: u8, size: Size) -> Candidate
    requires { byte < 128 }
    ensures { cand result ≡ plain byte (size_of size) }
{
    Candidate {
        set: 7,
        code: byte as u16,
        size,
    }
}

/// The candidates of a character that is neither newline nor mark.
fn letters(c: u32, kanji: u16, symbol: u16, annex: bool) -> Cands
    ensures { StandsFor (λ cells. letters cells annex c) c kanji symbol (items result) }
{
    let mut k = Cands::new();
    with_code(&mut k, OneByteTable::Hiragana, c, 2, Size::Wide);
    with_code(&mut k, OneByteTable::Katakana, c, 3, Size::Wide);
    with_code(&mut k, OneByteTable::Alphanumeric, c, 1, Size::Narrow);
    with_half(&mut k, c, annex);
    with_cell(&mut k, kanji, 0, Size::Wide);
    with_cell(&mut k, symbol, 5, Size::Wide);
    with_code(&mut k, OneByteTable::JisX0201Katakana, c, 4, Size::Narrow);
    with_space(&mut k, c, annex);
    k
}

/// The candidates of `c` in the order of trial, given its cells of the Kanji set and of the additional symbols, row × 256 +
/// cell, 0 for none. A newline is APR, and a mark is coded by its own cell of the seven.
pub fn candidates(c: u32, kanji: u16, symbol: u16, annex: bool) -> Cands
    ensures { StandsForCandidates c kanji symbol annex (items result) }
{
    let mut k = Cands::new();
    if c == 10 {
        k.push(without_set(APR, Size::Either));
        return k;
    }
    let mark = pack(tables::mark_cell(c));
    if mark != 0 {
        with_cell(&mut k, mark, 0, Size::Either);
        return k;
    }
    letters(c, kanji, symbol, annex)
}

/// The bytes of the shortest one's code, 0 where there is none.
pub fn shortest<C: Coded>(candidates: &[C]) -> usize
    ensures { result ≡ shortest (map C.stands_for candidates.now) }
{
    if candidates.is_empty() {
        return 0;
    }
    for candidate in candidates {
        if candidate.length() == 1 {
            return 1;
        }
    }
    2
}
