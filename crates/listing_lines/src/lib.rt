// All that the program `listing` prints: the decoding call, and its answer in the form of `listing_form`.
#![tactic(auto)]

ghost use Rattle.std.specs.Prelude.{◌≡◌, length};
ghost use Rattle.questions.specs.Questions.{first_refusal};
ghost use Rattle.ascii.specs.Promises.{Printed};
ghost use Rattle.listing_form.specs.Promises.{greatest};
ghost use Rattle.listing_lines.specs.Lines.{decoded_lines, listing};

use ascii::refused;
use listing_form::decoded;

/// The most bytes that `listing` prints.
pub const GREATEST: usize = listing_form::GREATEST;

/// The lines of an input that passed the questions.
fn passed_lines(cells: &[u16], input: &[u8], out: &mut [u8]) -> usize
    requires { first_refusal cells.now 0 0 4096 (length input.now) ≡ 0 }
    ensures { Printed greatest out.old (decoded_lines cells.now input.now) out.new result }
{
    let mut text = [0u8; 65536];
    let mut issues = [0u32; listing_form::ISSUE_ROOM];
    match decode::call::decode_checked(cells, 0, 0, input, &mut text, &mut issues) {
        Ok(counts) => {
            let n = counts.text;
            decoded(out, n, counts.issues, counts.charged, &text[..n], &issues)
        }
        Err(refusal) => refused(out, 0, refusal.number(), 0),
    }
}

/// The lines of an input, with a cell table.
fn decoded_lines(cells: &[u16], input: &[u8], out: &mut [u8]) -> usize
    ensures { Printed greatest out.old (decoded_lines cells.now input.now) out.new result }
{
    match questions::first(cells, 0, 0, 4096, input.len()) {
        Ok(()) => passed_lines(cells, input, out),
        Err(refusal) => refused(out, 0, refusal.number(), 0),
    }
}

/// All that `listing` prints: whether there is a `jis.tab`, its bytes, the input, and room for what is
/// printed. The answer is the length. The flag stays, as in `jis_tab::fill`, since the definition `listing` takes it.
pub fn listing(present: bool, table: &[u8], input: &[u8], out: &mut [u8]) -> usize
    ensures { Printed greatest out.old (listing present table.now input.now) out.new result }
{
    let mut cells = [0u16; 8836];
    let n = jis_tab::fill(present, table, &mut cells);
    decoded_lines(&cells[..n], input, out)
}
