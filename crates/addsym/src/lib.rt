// The additional symbols set (F = 03/11): rows 85 and 86 (additional Kanji, Table 7-11) and rows 90 to 94
// (additional symbols, Table 7-10), by the code values of Table 7-19.
#![tactic(auto)]

ghost use Rattle.std.specs.Prelude.{◌≡◌, ℕ, ◌+◌, ◌≤◌, ◌<◌, List, length, get_or, MatchOption};
ghost use Rattle.std.proofs.lemmas.List.Edits.{sets};
ghost use Rattle.addsym.specs.Symbols.{row_place, symbol, FoundReads, cell_in, SymbolsIn};

mod tables;

use tables::{ROW85, ROW86, ROW90, ROW91, ROW92, ROW93, ROW94, T719};

/// One cell of the additional symbols set.
#[derive(Clone, Copy)]
pub struct AdditionalSymbol {
    /// Row: 85, 86, 90 to 94.
    pub row: u8,
    /// Cell: 1 to 94.
    pub cell: u8,
    /// The value of Table 7-19.
    pub table_7_19: u32,
    /// The Unicode scalar that the decoder writes.
    pub unicode: u32,
}

/// The place of a row in the tables.
fn row_place(row: u8) -> Option<usize>
    ensures { MatchOption result (row_place row ≡ 7) (λ p. (p ≡ row_place row) × (p < 7)) }
{
    match row {
        85 => Some(0),
        86 => Some(1),
        90 => Some(2),
        91 => Some(3),
        92 => Some(4),
        93 => Some(5),
        94 => Some(6),
        _ => None,
    }
}

/// The place of a cell in a table of the seven rows, row by row; none outside the rows and the cells of Table 7-19.
fn index(row: u8, cell: u8) -> Option<usize>
    ensures { MatchOption result ((cells : List ℕ) → cell_in cells row cell ≡ 0) (λ i. (i < 658) × ((cells : List ℕ) → cell_in cells row cell ≡ get_or cells i 0)) }
{
    let place = row_place(row)?;
    if cell == 0 || 94 < cell {
        return None;
    }
    Some(place * 94 + (cell as usize) - 1)
}

/// The symbol at a row and a cell, by Tables 7-10, 7-11 and 7-19. None where Table 7-19 is blank, and outside its rows
/// and cells.
pub fn additional_symbol(row: u8, cell: u8) -> Option<AdditionalSymbol>
    ensures { FoundReads result row cell }
{
    let table_7_19 = T719[index(row, cell)?];
    if table_7_19 == 0 {
        return None;
    }
    Some(AdditionalSymbol {
        row,
        cell,
        table_7_19,
        unicode: scalar(row, cell),
    })
}

/// The scalar at a row and a cell, 0 where Table 7-19 is blank, and outside its rows and cells. A number of a table, as the
/// lent table's are, which `kanji_at` and `symbol_in` hand on as it is: no Option.
pub fn scalar(row: u8, cell: u8) -> u32
    ensures { result ≡ symbol row cell }
{
    if cell == 0 {
        return 0;
    }
    if 94 < cell {
        return 0;
    }
    let i = (cell as usize) - 1;
    match row {
        85 => ROW85[i],
        86 => ROW86[i],
        90 => ROW90[i],
        91 => ROW91[i],
        92 => ROW92[i],
        93 => ROW93[i],
        94 => ROW94[i],
        _ => 0,
    }
}

/// Writes the scalars of a row from `at` on.
fn put_row(all: &mut [u32], at: usize, row: &[u32])
    requires { at + length row.now ≤ length all.old }
    ensures { all.new ≡ sets all.old at row.now }
{
    all[at..at + row.len()].copy_from_slice(row);
}

/// The scalars of all the cells, row by row, 0 for a blank cell: for a search over many cells.
pub fn symbols() -> [u32; 658]
    ensures { SymbolsIn result }
{
    let mut all = [0; 658];
    put_row(&mut all, 0, &ROW85);
    put_row(&mut all, 94, &ROW86);
    put_row(&mut all, 188, &ROW90);
    put_row(&mut all, 282, &ROW91);
    put_row(&mut all, 376, &ROW92);
    put_row(&mut all, 470, &ROW93);
    put_row(&mut all, 564, &ROW94);
    all
}

/// The scalar at a row and a cell of such an array; 0 outside its rows and cells.
pub fn symbol_in(cells: &[u32; 658], row: u8, cell: u8) -> u32
    ensures { result ≡ cell_in cells.now row cell }
{
    match index(row, cell) {
        Some(i) => cells[i],
        None => 0,
    }
}
