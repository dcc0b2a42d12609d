// The form of the lines that the program `encoding` prints: from numbers and bytes to lines.
#![tactic(auto)]

ghost use Rattle.std.specs.Prelude.{◌≤◌, length};
ghost use Rattle.lent.specs.Put.{Put};
ghost use Rattle.ascii.specs.Promises.{Printed};
ghost use Rattle.encoding_form.specs.Lines.{first_line, coding_lines};
ghost use Rattle.encoding_form.specs.Promises.{greatest};

use ascii::{decimal, hexadecimal, word};

/// The most bytes that are printed: specs/Promises.antt counts them.
pub const GREATEST: usize = 131082;

/// The coding's length and its gap.
fn first_line(out: &mut [u8], n: usize, gap: usize) -> usize
    ensures { Put out.old 0 (first_line n gap) out.new result }
{
    let mut at = word(out, 0, b"coding ");
    at = decimal(out, at, n);
    at = word(out, at, b" gap ");
    at = decimal(out, at, gap);
    word(out, at, b"\n")
}

/// The lines of a coding of n bytes and its gap.
pub fn coded(out: &mut [u8], n: usize, gap: usize, coding: &[u8]) -> usize
    requires { (n ≤ 65529) × (gap ≤ 65529) × (length coding.now ≤ 65529) }
    ensures { Printed greatest out.old (coding_lines n gap coding.now) out.new result }
{
    let mut at = first_line(out, n, gap);
    at = hexadecimal(out, at, coding);
    word(out, at, b"\n")
}
