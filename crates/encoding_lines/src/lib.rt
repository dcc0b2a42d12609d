// All that the program `encoding` prints: the coding call, and its answer in the form of `encoding_form`.
#![tactic(auto)]

ghost use Rattle.std.specs.Prelude.{◌≡◌, length};
ghost use Rattle.ascii.specs.Promises.{Printed};
ghost use Rattle.encoding_form.specs.Promises.{greatest};
ghost use Rattle.encoding_lines.specs.Lines.{coded_lines, encoding};

use ascii::refused;
use encoding_form::coded;

/// The most bytes that `encoding` prints.
pub const GREATEST: usize = encoding_form::GREATEST;

/// The lines of a text, with a cell table and a store.
fn lines_in(cells: &[u16], text: &[u8], store: &mut [u32], out: &mut [u8]) -> usize
    requires { length store.old ≡ 1048576 }
    ensures { Printed greatest out.old (coded_lines cells.now text.now) out.new result }
{
    let mut coding = [0u8; 65529];
    match encode::call::encode_with(cells, 0, 0, text, store, &mut coding) {
        Ok(found) => {
            let n = found.length;
            coded(out, n, found.gap, &coding[..n])
        }
        Err(refusal) => refused(out, 0, refusal.number(), refusal.place()),
    }
}

/// The lines of a text, with a cell table: the store is made apart, 4 MB of stack.
fn coded_lines(cells: &[u16], text: &[u8], out: &mut [u8]) -> usize
    ensures { Printed greatest out.old (coded_lines cells.now text.now) out.new result }
{
    let mut store = [0u32; 1048576];
    lines_in(cells, text, &mut store, out)
}

/// All that `encoding` prints: whether there is a `jis.tab`, its bytes, the text, and room for what is
/// printed. The answer is the length. The flag stays, as in `jis_tab::fill`, since the definition `encoding` takes it.
pub fn encoding(present: bool, table: &[u8], text: &[u8], out: &mut [u8]) -> usize
    ensures { Printed greatest out.old (encoding present table.now text.now) out.new result }
{
    let mut cells = [0u16; 8836];
    let n = jis_tab::fill(present, table, &mut cells);
    coded_lines(&cells[..n], text, out)
}
