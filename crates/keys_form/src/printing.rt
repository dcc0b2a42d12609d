// The line that is printed.
ghost use Rattle.std.specs.Prelude.{◌+◌, ◌≤◌, ◌≡◌, true, ◌++◌};
ghost use Rattle.lent.specs.Put.{Put};
ghost use Rattle.keys_form.specs.Line.{tab, tab_at, number_of, is_line};
ghost use Rattle.keys_form.specs.Promises.{ending_at, ending};

use ascii::{refused, word};

/// NUMBER of a line whose TAB stands at a place, and TAB.
pub fn put_number(out: &mut [u8], line: &[u8], at: usize) -> usize
    requires { (is_line line.now ≡ true) × (at ≡ tab_at line.now) }
    ensures put { Put out.old 0 (number_of line.now ++ tab) out.new result }
    ensures upper_bound { result ≤ 11 }
{
    let next = word(out, 0, &line[..at]);
    word(out, next, b"\t")
}

/// Ends a line whose answer begins at a place: a key of `len` bytes, which stands there already, by a newline; or a
/// refusal. The question's number stays, 0 for none, since `ending`, which the theorems of `keys_lines` cite, goes by it.
pub fn put_answer(out: &mut [u8], at: usize, number: u32, len: usize) -> usize
    requires { (at ≤ 0x10000) × (len ≤ 0x40000) }
    ensures put { Put out.old (ending_at at number len) (ending number) out.new result }
    ensures upper_bound { result ≤ ending_at at number len + 50 }
{
    if number > 0 {
        return refused(out, at, number, 0);
    }
    word(out, at + len, b"\n")
}
