// Cells of the two-byte graphic sets, mapped to Unicode: ARIB STD-B24 volume 1 part 2, 7.1.1.3 (Tables 7-4, 7-10 and
// 7-11), 7.2.1.1.1 (Table 7-19) and Annex E. A character is a Unicode scalar; a number that stands for one is 0 where
// there is none.
#![tactic(auto)]

ghost use Rattle.std.specs.Prelude.{◌≡◌, ◌==◌, ◌&&◌, leb, ltb, position, find, option_map};
ghost use Rattle.addsym.specs.Symbols.{symbol};
ghost use Rattle.tables.specs.Kanji.{CellReads, non_spacing, kanji_overrides, assigned, has_character, place_value, cell_with, table_at, jis_x0208_at, gap, kanji_symbol, kanji_at};
ghost use Rattle.tables.specs.Marks.{mark_test};

/// What a cell of a two-byte set reads as: an ordinary character, a private-use one, or none.
#[derive(Clone, Copy)]
pub enum Cell {
    Char(u32),
    PrivateUse(u32),
    Undefined,
}

/// A cell of the Kanji set and its character.
#[derive(Clone, Copy)]
pub struct Assignment {
    pub row: u8,
    pub cell: u8,
    pub character: u32,
}

/// Whether a character is a mark, and the turns that the test for it took. No Option of the turns: those of a character
/// that is no mark count too (`TurnsNone`, `TurnsMost`).
#[derive(Clone, Copy)]
pub struct MarkTest {
    pub mark: bool,
    pub turns: usize,
}

/// A character as the answer of a two-byte set.
fn cell_of(c: u32) -> Cell
    ensures { CellReads result c }
{
    if c == 0 {
        return Cell::Undefined;
    }
    if private_use::is_private_use(c) {
        return Cell::PrivateUse(c);
    }
    Cell::Char(c)
}

/// The non-spacing cells of the Kanji set (7.1.1.4) and their combining characters (Table E-1).
pub const NON_SPACING: [Assignment; 7] = [
    Assignment {
        row: 1,
        cell: 13,
        character: 0x301,
    },
    Assignment {
        row: 1,
        cell: 14,
        character: 0x300,
    },
    Assignment {
        row: 1,
        cell: 15,
        character: 0x308,
    },
    Assignment {
        row: 1,
        cell: 16,
        character: 0x302,
    },
    Assignment {
        row: 1,
        cell: 17,
        character: 0x305,
    },
    Assignment {
        row: 1,
        cell: 18,
        character: 0x332,
    },
    Assignment {
        row: 2,
        cell: 94,
        character: 0x20DD,
    },
];

/// Cells whose character is that of JIS X 0221 and JIS X 0213:2004 (Annex E.1), whatever the lent table has.
pub const KANJI_OVERRIDES: [Assignment; 7] = [
    Assignment {
        row: 1,
        cell: 29,
        character: 0x2014,
    },
    Assignment {
        row: 1,
        cell: 33,
        character: 0x301C,
    },
    Assignment {
        row: 1,
        cell: 34,
        character: 0x2016,
    },
    Assignment {
        row: 1,
        cell: 61,
        character: 0x2212,
    },
    Assignment {
        row: 1,
        cell: 81,
        character: 0xA2,
    },
    Assignment {
        row: 1,
        cell: 82,
        character: 0xA3,
    },
    Assignment {
        row: 2,
        cell: 44,
        character: 0xAC,
    },
];

/// The place of the first cell of a list with a character, counted from 0.
fn place_with(list: &[Assignment], c: u32) -> Option<usize>
    ensures { result ≡ position (λ a. a.character == c) list.now }
{
    list.iter().position(|a| a.character == c)
}

/// Whether `c` is one of the combining characters of Table E-1, and how many of them it was compared with. None is lower
/// than U+0300.
pub fn is_non_spacing(c: u32) -> MarkTest
    ensures { result ≡ mark_test c }
{
    if c < 0x300 {
        return MarkTest {
            mark: false,
            turns: 0,
        };
    }
    let mut turns = 0;
    for a in &NON_SPACING {
        turns += 1;
        if a.character == c {
            return MarkTest { mark: true, turns };
        }
    }
    MarkTest { mark: false, turns }
}

/// Whether `c` is the character of an override.
pub fn is_override(c: u32) -> bool
    ensures { result ≡ has_character kanji_overrides c }
{
    place_with(&KANJI_OVERRIDES, c).is_some()
}

/// The row and the cell of the Kanji set that code a mark: its turns name its place.
pub fn mark_cell(c: u32) -> Option<(u8, u8)>
    ensures { place_value result ≡ cell_with non_spacing c }
{
    let test = is_non_spacing(c);
    if test.mark {
        let a = NON_SPACING[test.turns - 1];
        return Some((a.row, a.cell));
    }
    None
}

/// The character that a list assigns to a cell.
fn assigned_at(list: &[Assignment], row: u8, cell: u8) -> Option<u32>
    ensures { result ≡ option_map (λ a. a.character) (find (λ a. a.row == row && a.cell == cell) list.now) }
{
    list.iter()
        .find(|a| a.row == row && a.cell == cell)
        .map(|a| a.character)
}

/// The lent table's number at a cell.
fn table_at(t: &[u16], row: u8, cell: u8) -> u32
    ensures { result ≡ table_at t.now row cell }
{
    if row == 0 || 94 < row || cell == 0 || 94 < cell {
        return 0;
    }
    let place = (row as usize - 1) * 94 + (cell as usize - 1);
    u32::from(t.get(place).copied().unwrap_or(0))
}

/// Whether a cell is in one of row 90's gaps, which the additional symbols set alone fills (Table 7-10).
pub fn in_gap(row: u8, cell: u8) -> bool
    ensures { result ≡ gap row cell }
{
    if row != 90 {
        return false;
    }
    match cell {
        45..=63 => true,
        66..=84 => true,
        _ => false,
    }
}

/// Rows 90 to 94 of the Kanji set.
#[tactic(auto, unfolding(crate::specs::Kanji::kanji_symbol))]
fn kanji_symbol_at(row: u8, cell: u8) -> u32
    ensures { result ≡ kanji_symbol row cell }
{
    if in_gap(row, cell) {
        return 0;
    }
    addsym::scalar(row, cell)
}

/// Whether a row has neither marks nor overrides nor symbols, so that the lent table alone decides: rows 3 to 89.
fn in_table(row: u8) -> bool
    ensures { result ≡ (leb 3 row && ltb row 90) }
{
    if row < 3 {
        return false;
    }
    row < 90
}

/// JIS X 0208 at a cell: the overrides over the lent table.
fn jis_x0208_at(t: &[u16], row: u8, cell: u8) -> u32
    ensures { result ≡ jis_x0208_at t.now row cell }
{
    assigned_at(&KANJI_OVERRIDES, row, cell).unwrap_or(table_at(t, row, cell))
}

/// The Kanji set at a cell: marks, the row 90 gaps, rows 90 to 94 from the additional symbols, JIS X 0208. The search of a
/// row cell by cell has it inside its loop: a call for each cell makes it a third dearer.
#[inline(always)]
pub fn kanji_at(t: &[u16], row: u8, cell: u8) -> u32
    ensures { result ≡ kanji_at t.now row cell }
{
    if in_table(row) {
        return table_at(t, row, cell);
    }
    if row < 3 {
        if let Some(mark) = assigned_at(&NON_SPACING, row, cell) {
            return mark;
        }
        return jis_x0208_at(t, row, cell);
    }
    if row < 95 {
        return kanji_symbol_at(row, cell);
    }
    0
}

/// JIS X 0208 with the overrides, over the lent table. Annex E.1.
pub fn jis_x0208(t: &[u16], row: u8, cell: u8) -> Cell
    ensures { CellReads result (jis_x0208_at t.now row cell) }
{
    cell_of(jis_x0208_at(t, row, cell))
}

/// The Kanji set, over the lent table. Table 7-4.
pub fn kanji(t: &[u16], row: u8, cell: u8) -> Cell
    ensures { CellReads result (kanji_at t.now row cell) }
{
    cell_of(kanji_at(t, row, cell))
}

/// The additional symbols set: rows 85 and 86 (Table 7-11), 90 to 94 (Table 7-10).
pub fn additional_symbols(row: u8, cell: u8) -> Cell
    ensures { CellReads result (symbol row cell) }
{
    cell_of(addsym::scalar(row, cell))
}
