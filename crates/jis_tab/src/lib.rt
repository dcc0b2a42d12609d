// The cell table of a program, from the bytes of its file `jis.tab`.
#![tactic(auto)]

ghost use Rattle.std.specs.Prelude.{◌≡◌, length, get_or};
ghost use Rattle.questions.specs.Buffer.{padded};
ghost use Rattle.jis_tab.specs.CellTable.{big_endian};
ghost use Rattle.jis_tab.specs.Promises.{Filled};

/// Number i of the bytes, two a number; 0 past the end.
fn number(bytes: &[u8], i: usize) -> u16
    ensures { result ≡ get_or (big_endian bytes.now) i 0 }
{
    if i < bytes.len() / 2 {
        return u16::from_be_bytes([bytes[2 * i], bytes[2 * i + 1]]);
    }
    0
}

/// The numbers of the bytes, then zeros.
pub fn numbers(bytes: &[u8], cells: &mut [u16])
    ensures { cells.new ≡ padded (length cells.old) (big_endian bytes.now) }
{
    for (i, cell) in cells.iter_mut().enumerate() {
        *cell = number(bytes, i);
    }
}

/// Fills a buffer for 8,836 numbers, and answers how many of them count: whether there is a `jis.tab`,
/// and its bytes. The flag stays, since `cell_table`, which the theorems of the programs' lines cite, takes it.
pub fn fill(present: bool, bytes: &[u8], cells: &mut [u16]) -> usize
    ensures { Filled present bytes.now cells.old cells.new result }
{
    if !present {
        numbers(&bytes[..0], cells);
        return cells.len();
    }
    numbers(bytes, cells);
    if bytes.len() == 17672 {
        return cells.len();
    }
    0
}
