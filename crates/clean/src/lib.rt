// The clean call: whether a string is read without an issue, or the number of the first question that fails. Request 2,
// "Clean or not", and 01, "The questions, put in this order".
#![tactic(auto)]

ghost use Rattle.std.specs.Prelude.{◌≡◌, length};
ghost use Rattle.questions.specs.Questions.{first_refusal};
ghost use Rattle.reading.specs.WithoutBuffers.{lent};
ghost use Rattle.clean.specs.Promises.{Answered};

use questions::refusal::Refusal;

/// The answer where questions 1 to 3 were put and passed: the decoder's own steps, up to the first issue. Nothing is
/// written, since there is no room.
fn clean_checked(cells: &[u16], initial: u32, width: u32, input: &[u8]) -> bool
    requires { first_refusal cells.now initial width 65535 (length input.now) ≡ 0 }
    ensures { Answered (lent cells.now initial width input.now) (Ok result) }
{
    let mut text = [0u8; 0];
    let mut issues = [0u32; 0];
    let start = decode_state::start(initial, width, 1);
    let none = decode_state::undefined(start);
    let w = decode_outer::top(cells, input, 0, input.len(), none, &mut text, &mut issues);
    let out = w.decoder.core.out;
    if out.issues > 0 {
        return false;
    }
    let flushed = decode_output::flush_dangling(out, &mut issues);
    flushed.issues == 0
}

/// Whether a string of the eight-unit code is read without an issue, or the first question that fails. The options are as
/// wide as a C caller's: question 2 asks them of `arib_clean` too.
pub fn clean(cells: &[u16], initial: u32, width: u32, input: &[u8]) -> Result<bool, Refusal>
    ensures { Answered (lent cells.now initial width input.now) result }
{
    questions::first(cells, initial, width, questions::DECODE_LIMIT, input.len())?;
    Ok(clean_checked(cells, initial, width, input))
}
