// One line of the program `keys`: from the line that is read to the line that is printed, in the form of `keys_form`.
#![tactic(auto)]

ghost use Rattle.std.specs.Prelude.{◌≡◌, true, ◌≤◌, length};
ghost use Rattle.questions.specs.Questions.{cells_hold};
ghost use Rattle.key.specs.Promises.{lent, Answered};
ghost use Rattle.keys_form.specs.Line.{tab_at, is_line};
ghost use Rattle.keys_lines.specs.Line.{room_for, line_text, printed};
ghost use Rattle.keys_lines.specs.Promises.{PrintRoom, Prints};
ghost use Rattle.std.proofs.Math.Option.{some};

use key::Keyed;
use keys_form::{parts, printing};
use questions::refusal::Refusal;

/// The longest line that is read, a carriage return counted.
pub const LONGEST: usize = 131082;

/// The most bytes of a title.
pub const TITLE: usize = 65535;

/// The most bytes that are printed for a line: ten digits, TAB, a text of 196,608 bytes and a newline.
pub const PRINTED: usize = 196620;

/// The room for the text of a title of n bytes.
fn room_for(n: usize) -> usize
    requires { n ≤ 65535 }
    ensures { result ≡ room_for n }
{
    if n * 64 < 196608 { n * 64 } else { 196608 }
}

/// The key of a title: Si, CharacterSize. Question 1 is put unless the cell table was admitted before.
fn title_key(cells: &[u16], admitted: bool, title: &[u8], out: &mut [u8]) -> Result<Keyed, Refusal>
    requires { (admitted ≡ true → cells_hold cells.now ≡ true) × (length title.now ≤ 65535) }
    ensures { Answered (lent cells.now 0 0 title.now out.old) result out.new }
{
    if admitted {
        return key::key_checked(cells, 0, 0, title, out);
    }
    key::key(cells, 0, 0, title, out)
}

/// Prints the line for a well-formed line, whose TAB stands at a place.
fn print_line(
    cells: &[u16],
    admitted: bool,
    line: &[u8],
    tab: usize,
    title: &mut [u8],
    out: &mut [u8],
) -> usize
    requires line_value { (is_line line.now ≡ true) × (tab ≡ tab_at line.now) }
    requires print_room { PrintRoom cells.now admitted (length title.old) (length out.old) }
    ensures { Prints (some (line_text cells.now line.now)) (Some result) out.new }
{
    let n = parts::put_title(line, tab, title);
    let at = printing::put_number(out, line, tab);
    let end = at + room_for(n);
    match title_key(cells, admitted, &title[..n], &mut out[at..end]) {
        Ok(key) => printing::put_answer(out, at, 0, key.len),
        Err(refusal) => printing::put_answer(out, at, refusal.number(), 0),
    }
}

/// Prints the line for a line into `out`: how many bytes, none where the line is malformed. `title` is room for the title's bytes; what is left in it, and in `out` behind
/// what is printed, is undecided. `admitted` says that the cell table passed question 1, which is then not put again.
pub fn print(
    cells: &[u16],
    admitted: bool,
    line: &[u8],
    title: &mut [u8],
    out: &mut [u8],
) -> Option<usize>
    requires { PrintRoom cells.now admitted (length title.old) (length out.old) }
    ensures { Prints (printed cells.now line.now) result out.new }
{
    let l = parts::trimmed(line);
    let tab = parts::tab_at(l);
    if !parts::is_line(l, tab) {
        return None;
    }
    Some(print_line(cells, admitted, l, tab, title, out))
}
